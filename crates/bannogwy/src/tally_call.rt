// The call on a tally.
ghost use Rattle.std.specs.Prelude.{◌≡◌};
ghost use Rattle.tally.specs.Tally.{added_to};

use tally::Tally;

// The caller's record, brought up to date in place.
#[unsafe(no_mangle)]
pub extern "C" fn bannogwy_tally_add(t: &mut Tally, deliveries: u64, offers: u64, refused: u32)
    ensures { t.new ≡ added_to t.old deliveries offers refused }
{
    tally::add(t, deliveries, offers, refused)
}
