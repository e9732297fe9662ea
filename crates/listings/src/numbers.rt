// Numbers as text: the one place that sets a figure.
ghost use Rattle.std.specs.Prelude.{decimal};
ghost use Rattle.sinks.specs.Sinks.{Given};

use sinks::sink::Sink;

// The decimal digits of n.
// Kept: by hand, and through no Formatter. Its clauses say nothing of what was written where a write fails.
pub(crate) fn write_number<S: Sink<u8>>(out: &mut S, n: usize) -> Result<(), S::Full>
    ensures { Given S.takes S.stops out.old (decimal n) result out.new }
{
    if n < 10 {
        return out.put(b'0' + n as u8);
    }
    write_number(out, n / 10)?;
    out.put(b'0' + (n % 10) as u8)
}
