// A ready phrase run in the zone of a file, and what the clocks show where the run ends.
ghost use Rattle.std.specs.Prelude.{◌≡◌, ◌<◌};
ghost use Rattle.tzif.specs.Read.{zone_read};
ghost use Rattle.zones.specs.Instants.{Shown};
ghost use Rattle.records.specs.Records.{decode_of};
ghost use Rattle.zoned.specs.Local.{shown_by, local_at, located_of, run_in_zone};

use super::run::run_at;
use calendar::moments::Moment;
use refusals::Reason;
use tzif::file::check;
use tzif::zone::Zone;
use zones::instants::{Instant, clock_of};
use zones::search::shift_at;

// What the clocks of a zone show at an instant: its second, the civil moment, and the offset from UTC, west of it or not, in seconds.
#[derive(Clone, Copy)]
pub struct Local {
    pub civil: Moment,
    pub second: u64,
    pub west: bool,
    pub offset: u32,
}

// The offset of UTC itself, 90,000 added as to every offset.
const UTC: u64 = 90000;

// What clocks show by the offset in force.
fn shown_by(shift: u64, civil: Moment, second: u64) -> Local
    requires { shift < 183600 }
    ensures { result ≡ shown_by shift civil second }
{
    Local {
        civil,
        second,
        west: shift < UTC,
        offset: shift.abs_diff(UTC) as u32,
    }
}

// What the clocks of a zone show at an instant.
fn local_at(zone: Zone<'_>, x: Instant) -> Local
    requires { Shown (zone_read zone) x }
    ensures { result ≡ local_at (zone_read zone.entry) x }
{
    shown_by(shift_at(zone, x.second), clock_of(zone, x), x.second)
}

// A ready phrase at an instant of a file's zone: 21 for the file, then what running it there refuses.
pub fn run_in_zone(b: &[u8], file: &[u8], n: Instant) -> Result<Local, Reason>
    ensures { located_of result ≡ run_in_zone (decode_of b.now) file.now n }
{
    let zone = check(file).ok_or(Reason::NoZone)?;
    let x = run_at(b, zone, n)?;
    Ok(local_at(zone, x))
}
