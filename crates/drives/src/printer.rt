// Standard output, as a place that takes a text byte by byte.
use sinks::sink::Sink;
use std::io;
use std::io::{BufWriter, Stdout, Write};

// The program's buffered output. Nothing of the text is held but what the buffer holds; what was printed is tested, and
// not proved, so that nothing is said of it here.
#[derive(Drop)]
pub struct Printer<'a> {
    pub out: &'a mut BufWriter<Stdout>,
}

impl<'a> Sink<u8> for Printer<'a> {
    type Full = io::Error;

    ghost takes = { λ _ _ _. Unit {0} };

    ghost stops = { λ _ _ _. Unit {0} };

    fn put(&mut self, item: u8) -> io::Result<()> {
        self.out.write_all(&[item])
    }

    ghost laws = { record {
      none = λ _. tt;
      more = λ _ _ _ _ _ _ _. tt;
      then = λ _ _ _ _ _ _ _. tt;
      full = λ _ _ _ _ _. tt;
    } };
}
