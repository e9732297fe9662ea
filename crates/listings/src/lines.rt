// The lines of a listing: a letter, values with a blank before each, and the end of the line.
ghost use Rattle.std.specs.Prelude.{◌≡◌};
ghost use Rattle.sinks.specs.Sinks.{Given};
ghost use Rattle.votes.specs.Faults.{refusal_breach};
ghost use Rattle.recordings.specs.Files.{file_breach};
ghost use Rattle.listings.specs.Texts.{round_line, head_line, refusal_line, fault_line};
ghost use Rattle.listings.specs.Values.{value_text, line_text, value_of, code_of, letter_of};

use crate::numbers::write_number;
use recordings::faults::FileFault;
use recordings::listing::Outcome;
use sinks::sink::Sink;
use votes::faults::Refusal;
use votes::stages::Figures;

// A value of a line.
#[derive(Clone, Copy)]
enum Value {
    Number(usize),
    Letter(u8),
    Dash,
}

// A number, or a dash where there is none.
impl From<Option<usize>> for Value {
    ghost from_gives = { λ n v. v ≡ value_of n };

    fn from(number: Option<usize>) -> Value {
        match number {
            Some(n) => Value::Number(n),
            None => Value::Dash,
        }
    }
}

fn write_value<S: Sink<u8>>(out: &mut S, value: Value) -> Result<(), S::Full>
    ensures { Given S.takes S.stops out.old (value_text value) result out.new }
{
    match value {
        Value::Number(n) => write_number(out, n),
        Value::Letter(letter) => out.put(letter),
        Value::Dash => out.put(b'-'),
    }
}

fn write_line<S: Sink<u8>>(out: &mut S, letter: u8, values: &[Value]) -> Result<(), S::Full>
    ensures { Given S.takes S.stops out.old (line_text letter values.now) result out.new }
{
    out.put(letter)?;
    for value in values {
        out.put(b' ')?;
        write_value(out, *value)?;
    }
    out.put(b'\n')
}

// The line of a heard round.
pub fn write_round<S: Sink<u8>>(out: &mut S, figures: Figures) -> Result<(), S::Full>
    ensures { Given S.takes S.stops out.old (round_line figures) result out.new }
{
    let values = [
        Value::Number(figures.round as usize),
        Value::Number(figures.senders as usize),
        Value::Number(figures.alarms as usize),
        Value::Number(figures.decided as usize),
        Value::Number(figures.running as usize),
    ];
    write_line(out, b'R', &values)
}

// How a head stands at the end.
fn letter_of(outcome: Outcome) -> Value
    ensures { result ≡ letter_of outcome }
{
    match outcome {
        Outcome::Running => Value::Letter(b'r'),
        Outcome::Stopped => Value::Letter(b's'),
        Outcome::Decided(_) => Value::Letter(b'd'),
    }
}

// The code of the ballot that a head decided.
fn code_of(outcome: Outcome) -> Value
    ensures { result ≡ code_of outcome }
{
    match outcome {
        Outcome::Decided(code) => Value::Number(code as usize),
        _ => Value::Dash,
    }
}

// The line of a head at the end.
pub fn write_head<S: Sink<u8>>(out: &mut S, head: usize, outcome: Outcome) -> Result<(), S::Full>
    ensures { Given S.takes S.stops out.old (head_line head outcome) result out.new }
{
    let values = [Value::Number(head), letter_of(outcome), code_of(outcome)];
    write_line(out, b'H', &values)
}

// The line of a refusal, with the byte where the record starts that is refused, or a dash where there is none.
pub fn write_refusal<S: Sink<u8>>(
    out: &mut S,
    byte: Option<usize>,
    refusal: Refusal,
) -> Result<(), S::Full>
    ensures { Given S.takes S.stops out.old (refusal_line byte (refusal_breach refusal)) result out.new }
{
    let values = [
        Value::Number(refusal.number as usize),
        Value::from(byte),
        Value::from(refusal.round),
        Value::from(refusal.head),
        Value::from(refusal.other),
    ];
    write_line(out, b'F', &values)
}

// The line of the fault that ended the playing.
pub(crate) fn write_fault<S: Sink<u8>>(out: &mut S, fault: FileFault) -> Result<(), S::Full>
    ensures { Given S.takes S.stops out.old (fault_line (file_breach fault)) result out.new }
{
    write_refusal(out, Some(fault.byte), fault.fault.refusal())
}
