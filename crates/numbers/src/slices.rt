// Reading a slice of lexemes at a place: what all readers share.
ghost use Rattle.std.specs.Prelude.{◌≡◌, ◌+◌, ◌*◌, ◌≤◌, min, max, length, drop};
ghost use Rattle.numbers.specs.Slices.{get, is_at, one_if};

// The lexeme at i, or 0 past the end.
#[tactic(auto, unfolding(crate::specs::Slices::get))]
pub fn get(l: &[u64], i: usize) -> u64
    ensures value { result ≡ get l.now i }
    ensures result_bound { i + min result 1 ≤ max i (length l.now) }
{
    l.get(i).copied().unwrap_or(0)
}

// Whether the lexeme x stands at i.
#[tactic(auto, unfolding(crate::specs::Slices::is_at))]
pub fn is_at(l: &[u64], i: usize, x: u64) -> bool
    ensures value { result ≡ is_at l.now i x }
    ensures result_bound { i + one_if result ≤ max i (length l.now) }
{
    l.get(i) == Some(&x)
}

// 1 for a lexeme x at i, which is taken then, and else 0.
pub fn take_if(l: &[u64], i: usize, x: u64) -> usize
    ensures value { result ≡ one_if (is_at l.now i x) }
    ensures upper_bound { (result ≤ 1) × (i + result ≤ max i (length l.now)) }
{
    usize::from(is_at(l, i, x))
}

// `&l[t..]`
pub fn rest(l: &[u64], t: usize) -> &[u64]
    requires { t ≤ length l.now }
    ensures result_value { result.now ≡ drop t l.now }
    ensures result_value_2 { t + length result.now ≡ length l.now }
    ensures own { result.ref_ptr ≡ (l.entry.ref_ptr.0, t * 8 + l.entry.ref_ptr.1) }
{
    &l[t..]
}
