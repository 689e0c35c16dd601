// The lines behind those of the records.
ghost use Rattle.std.specs.Prelude.{◌≡◌};
ghost use Rattle.lines.specs.Text.{shown_text};
ghost use Rattle.listing.specs.Listing.{said_at_stop, text_of};
ghost use Rattle.listing.specs.Blocks.{stop_listed, end_listed};

use lines::{LONGEST_LINE, write_spent, write_stopped};
use replay::Run;

// Writes the end of a run's listing at the start of a buffer, and hands back how many bytes it is. Without room for two of the longest lines, nothing.
pub fn list_end(run: Run, out: &mut [u8]) -> usize
    ensures { shown_text result out.new ≡ end_listed (text_of (said_at_stop run.number run.stop run.spent)) out.old }
{
    let spent = run.spent;
    let stop = run.stop;
    if out.len() < 2 * LONGEST_LINE {
        return 0;
    }
    let at = list_stop(run.number, stop, out);
    write_spent(out, at, spent)
}

fn list_stop(number: u64, stop: Option<u64>, out: &mut [u8]) -> usize
    ensures { shown_text result out.new ≡ stop_listed number stop out.old }
{
    match stop {
        None => 0,
        Some(cost) => write_stopped(out, 0, number, cost),
    }
}
