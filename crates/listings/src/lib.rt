#![tactic(auto)]
// The listing of a played vote, as text.
pub mod lines;
mod numbers;
pub mod page;
pub mod text;

#[cfg(test)]
mod tests {
    use crate::lines::{write_head, write_refusal, write_round};
    use crate::text::{write_heads, write_rounds};
    use recordings::listing::Outcome;
    use std::alloc::AllocError;
    use votes::faults::Refusal;
    use votes::stages::Figures;

    #[test]
    fn lines_are_written_to_a_list(rt: HostRuntime) -> Result<(), AllocError> {
        let mut out = Vec::new(rt.alloc());
        let figures = Figures {
            round: 12,
            senders: 3,
            alarms: 0,
            decided: 1,
            running: 64,
        };
        write_round(&mut out, figures)?;
        write_head(&mut out, 10, Outcome::Decided(4095))?;
        write_head(&mut out, 0, Outcome::Running)?;
        let refusal = Refusal {
            number: 7,
            round: Some(1),
            head: Some(0),
            other: None,
        };
        write_refusal(&mut out, None, refusal)?;
        let text = b"R 12 3 0 1 64\nH 10 d 4095\nH 0 r -\nF 7 - 1 0 -\n";
        assert!(rt; out.as_slice() == text.as_slice());
        Ok(())
    }

    #[test]
    fn rounds_and_heads_are_written_to_a_list(rt: HostRuntime) -> Result<(), AllocError> {
        let mut out = Vec::new(rt.alloc());
        let figures = Figures {
            round: 1,
            senders: 2,
            alarms: 0,
            decided: 0,
            running: 2,
        };
        write_rounds(&mut out, &[figures])?;
        write_heads(&mut out, &[Outcome::Stopped, Outcome::Running])?;
        let text = b"R 1 2 0 0 2\nH 0 s -\nH 1 r -\n";
        assert!(rt; out.as_slice() == text.as_slice());
        Ok(())
    }
}
