//! The numbers that stand for work, and the work that a request means.
ghost use Rattle.std.specs.Prelude.{◌≡◌};
ghost use Rattle.osb_c_instance.specs.Works.{code_or_none, work_at, work_code};

use osb_c_types::{kind_from, mode_from};
use osb_instance::Work;

// Stands for no work.
const NO_WORK: u8 = 0;

// The number of work.
fn work_out(work: Work) -> u8
    ensures code { result ≡ work_code work }
{
    match work {
        Work::Make => 1,
        Work::StartMaking => 2,
        Work::Delete => 3,
        Work::StartDeleting => 4,
    }
}

/// The number of the work, or of none. It takes no memory.
pub fn some_work_out(work: Option<Work>) -> u8
    ensures code { result ≡ code_or_none work }
{
    match work {
        None => NO_WORK,
        Some(work) => work_out(work),
    }
}

/// The work that a request of the kind means at a plan of the mode: what a broker that starts again asks of recorded
/// work. 0 of a Poll, where the plan isn't on sale, and where a number stands for nothing. It takes no memory.
#[unsafe(no_mangle)]
pub extern "C" fn osb_work_of(kind: u8, mode: u8) -> u8
    ensures work { result ≡ code_or_none (work_at kind mode) }
{
    let (Some(kind), Some(mode)) = (kind_from(kind), mode_from(mode)) else {
        return NO_WORK;
    };
    some_work_out(Work::of(kind, mode))
}
