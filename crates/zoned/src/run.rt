// A ready phrase run from its bytes at an instant of a zone. The steps ahead of a time of day are those of the fixed offset's runner.
ghost use Rattle.std.specs.Prelude.{◌≡◌, true, ◌+◌, ◌-◌, ◌*◌, ◌/◌, ◌≤◌, length};
ghost use Rattle.calendar.specs.Moments.{and_then, reached_of, Valid};
ghost use Rattle.tzif.specs.Read.{zone_read};
ghost use Rattle.zones.specs.Civil.{answer_of};
ghost use Rattle.zones.specs.Instants.{instant_at, Shown, Kept};
ghost use Rattle.steps.specs.Running.{act_in, walk_in, lead_in, is_list};
ghost use Rattle.records.specs.Words.{step_from};
ghost use Rattle.records.specs.Records.{words_at, steps_at, decode_of};
ghost use Rattle.zoned.specs.InZone.{in_zone, run_at};
ghost use Rattle.zoned.specs.Kinds.{startKind, moveKind, kind_of, civil_step, up_to_time};

use calendar::moments::Moment;
use records::run::{is_list, step_at, walk};
use refusals::Reason;
use steps::plan::{Move, Start, Step};
use steps::run::{one_if_time, times_due};
use tzif::zone::Zone;
use zones::civil::in_years;
use zones::instants::{Instant, clock_of, fixed_step, settle};
use zones::search::civil_of;

// What a step asks for in a zone: nothing, a fixed length on the instant, or an act on the civil time.
#[derive(Clone, Copy)]
enum Kind {
    Stays,
    Fixed { back: bool, count: u64 },
    Civil,
}

// Of a start. Here and below every start and every move is named, so that a new one has to be placed.
fn start_kind(start: Start) -> Kind
    ensures { result ≡ startKind start }
{
    match start {
        Start::Now => Kind::Stays,
        Start::Senseless | Start::OnDate(_) | Start::InWeek(_, _) | Start::FromToday(_) =>
            Kind::Civil,
    }
}

// Of a move.
fn move_kind(way: Move) -> Kind
    ensures { result ≡ moveKind way }
{
    match way {
        Move::Minutes { back, count } => Kind::Fixed { back, count },
        Move::Months { .. } | Move::Years { .. } | Move::BackTo(_) | Move::ForwardTo(_) =>
            Kind::Civil,
    }
}

// Of a step.
fn kind_of(step: Step) -> Kind
    ensures { result ≡ kind_of step }
{
    match step {
        Step::From(start) => start_kind(start),
        Step::By(way) => move_kind(way),
        Step::AtTime(_) => Kind::Civil,
    }
}

// How many steps there are up to the time of day, that one included.
fn up_to_time(b: &[u8]) -> usize
    ensures { (result ≡ up_to_time (steps_at (length b.now / 16) b.now 0)) × (16 * result ≤ length b.now) }
{
    let count = b.len() / 16;
    for i in 0..count {
        if one_if_time(step_at(b, i)) == 1 {
            return i + 1;
        }
    }
    count
}

// The instant of a civil answer, which is refused by the steps ahead of it or by the zone.
fn instant_of(zone: Zone<'_>, at: Result<Moment, Reason>) -> Result<Instant, Reason>
    requires { Valid (reached_of at) }
    ensures result_value { answer_of result ≡ and_then (reached_of at) (instant_at (zone_read zone.entry)) }
    ensures kept { Kept (zone_read zone.entry) (answer_of result) }
{
    settle(zone, at)?
}

// What a run has at hand: the bytes of a ready phrase, a zone, and the now, an instant that a run may stand at.
#[derive(Clone, Copy)]
struct Walk<'a> {
    ready: &'a [u8],
    zone: Zone<'a>,
    instant: Instant,
    ghost shown: { Shown (zone_read zone) instant },
}

impl Walk<'_> {
    // The step of record i on the civil time of x, with its result settled. It is walked: with one caller, `act` stays a part of `walk`.
    fn act_civil(&self, i: usize, x: Instant) -> Result<Instant, Reason>
        requires { (16 * i + 16 ≤ length self.now.ready.now) × Shown (zone_read self.now.zone) x }
        ensures result_value { answer_of result
            ≡ civil_step (zone_read self.now.zone) (step_from (words_at self.now.ready.now (16 * i))) self.now.instant x }
        ensures kept { Kept (zone_read self.now.zone) (answer_of result) }
    {
        let at = clock_of(self.zone, self.instant);
        let t = clock_of(self.zone, x);
        instant_of(self.zone, walk(self.ready, i, i + 1, at, t))
    }

    // The step of record i in the zone from x.
    fn act_in(&self, i: usize, x: Instant) -> Result<Instant, Reason>
        requires { (16 * i + 16 ≤ length self.now.ready.now) × Shown (zone_read self.now.zone) x }
        ensures result_value { answer_of result
            ≡ act_in (in_zone (zone_read self.now.zone)) (step_from (words_at self.now.ready.now (16 * i))) self.now.instant x }
        ensures kept { Kept (zone_read self.now.zone) (answer_of result) }
    {
        match kind_of(step_at(self.ready, i)) {
            Kind::Stays => Ok(x),
            Kind::Fixed { back, count } => fixed_step(self.zone, back, count, x),
            Kind::Civil => self.act_civil(i, x),
        }
    }

    // The steps behind the first k in order, up to the first refusal.
    fn walk_in(&self, k: usize, from: Instant) -> Result<Instant, Reason>
        requires { Shown (zone_read self.now.zone) from }
        ensures result_value { let ready = self.now.ready.now in
            answer_of result
            ≡ walk_in (in_zone (zone_read self.now.zone)) (steps_at (length ready / 16 - k) ready (16 * k)) self.now.instant from }
        ensures kept { Kept (zone_read self.now.zone) (answer_of result) }
    {
        let mut x = from;
        for i in k..self.ready.len() / 16 {
            x = self.act_in(i, x)?;
        }
        Ok(x)
    }

    // The steps of a list: a dated start is ahead of its time of day.
    fn lead_in(&self) -> Result<Instant, Reason>
        requires { is_list (decode_of self.now.ready.now) ≡ true }
        ensures result_value { let ready = self.now.ready.now in
            answer_of result ≡ lead_in (in_zone (zone_read self.now.zone)) (decode_of ready) self.now.instant }
        ensures kept { Kept (zone_read self.now.zone) (answer_of result) }
    {
        if times_due(step_at(self.ready, 0)) != 1 {
            return self.walk_in(0, self.instant);
        }
        let k = up_to_time(self.ready);
        let at = clock_of(self.zone, self.instant);
        let x = instant_of(self.zone, walk(self.ready, 0, k, at, at))?;
        self.walk_in(k, x)
    }
}

// A ready phrase at an instant: 8, 22 of now, 8, then 9 for a slice that stands for no list, then the steps.
pub(crate) fn run_at(b: &[u8], zone: Zone<'_>, n: Instant) -> Result<Instant, Reason>
    ensures result_value { answer_of result ≡ run_at (zone_read zone.entry) (decode_of b.now) n }
    ensures kept { Kept (zone_read zone.entry) (answer_of result) }
{
    if n.millisecond > 999 {
        return Err(Reason::InvalidMoment);
    }
    if zone.places.last <= n.second {
        return Err(Reason::PastLast);
    }
    if !in_years(civil_of(zone, n.second)) {
        return Err(Reason::InvalidMoment);
    }
    if !is_list(b) {
        return Err(Reason::NoSense);
    }
    let walk = Walk {
        ready: b,
        zone,
        instant: n,
    };
    walk.lead_in()
}
