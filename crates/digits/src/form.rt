// Fixed forms.
ghost use Rattle.std.specs.Prelude.{◌≡◌};
ghost use Rattle.digits.specs.Forms.{in_place, of_form};

use super::digit::is_digit;

// True for a byte that a form has in this place: any digit for a 0, a letter in either case, else the same byte.
fn in_place(f: u8, b: u8) -> bool
    ensures { result ≡ in_place f b }
{
    if f == b'0' {
        is_digit(b)
    } else {
        b.eq_ignore_ascii_case(&f)
    }
}

// True for a text of a form.
pub fn of_form(form: &[u8], s: &[u8]) -> bool
    ensures { result ≡ of_form form.now s.now }
{
    form.len() == s.len() && form.iter().zip(s).all(|(f, b)| in_place(*f, *b))
}
