// The status in which a command ends.
ghost use Rattle.std.specs.Prelude.{◌≡◌};
ghost use Rattle.aria_top.specs.Statuses.{final_status};

use script_course::Stop;

/// The status of a command that ended in one of its own, or stopped.
pub fn final_status(ending: Result<u8, Stop>) -> u8
    ensures { result ≡ final_status ending }
{
    match ending {
        Ok(status) => status,
        Err(stop) => stop.status(),
    }
}
