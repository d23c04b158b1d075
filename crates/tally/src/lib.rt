// The tally of deliver and run. It is worked out by value; one thin function brings the caller's record up to date in place.
#![tactic(auto)]

ghost use Rattle.std.specs.Prelude.{◌≡◌, ◌+◌};
ghost use Rattle.tally.specs.Tally.{added_to, after_delivery, after_run, capped};

use table::Ran;

// Deliveries done, offers that rows took, and calls refused.
#[repr(C)]
#[derive(Clone, Copy, Debug, PartialEq, Eq, Drop)]
pub struct Tally {
    pub deliveries: u32,
    pub offers: u32,
    pub refused: u32,
}

// The sum, or the largest number that a counter holds.
fn capped_sum(x: u32, more: u64) -> u32
    ensures { result ≡ capped (x + more) }
{
    let room = u64::from(4294967295 - x);
    if room < more {
        return 4294967295;
    }
    x + more as u32
}

// The tally with so many more of each.
pub fn added(t: Tally, deliveries: u64, offers: u64, refused: u32) -> Tally
    ensures { result ≡ added_to t deliveries offers refused }
{
    Tally {
        deliveries: capped_sum(t.deliveries, deliveries),
        offers: capped_sum(t.offers, offers),
        refused: capped_sum(t.refused, u64::from(refused)),
    }
}

// The tally after a call of deliver that answered this; which error it is does not count.
pub fn after_delivery<E: Drop>(t: Tally, answer: Result<usize, E>) -> Tally
    ensures { result ≡ after_delivery t answer }
{
    match answer {
        Ok(rows) => added(t, 1, rows as u64, 0),
        Err(_) => added(t, 0, 0, 1),
    }
}

// The tally after a call of run that answered this; here too any error counts as one.
pub fn after_run<E: Drop>(t: Tally, answer: Ran<E>) -> Tally
    ensures { result ≡ after_run t answer }
{
    let refused = u32::from(answer.refused.is_some());
    added(t, u64::from(answer.done), answer.offers, refused)
}

// The caller's record, brought up to date in place.
pub fn add(t: &mut Tally, deliveries: u64, offers: u64, refused: u32)
    ensures { t.new ≡ added_to t.old deliveries offers refused }
{
    *t = added(*t, deliveries, offers, refused);
}
