// The sums of what the domains of a plan file reserve, as the walk tells them on its way.
ghost use Rattle.std.specs.Prelude.{◌≡◌};
ghost use Rattle.plan.specs.Sums.{sums_told};

use crate::chain::Sums;
use crate::reading;

// How many records of a file's chain are taken and the sum after each of them, for any bytes: also where the file is
// refused behind them.
pub fn sums_told(file: &[u8]) -> Sums
    ensures { result ≡ sums_told file.now }
{
    let w = reading::way(file);
    w.gathered.sums
}
