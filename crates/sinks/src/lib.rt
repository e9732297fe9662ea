#![tactic(auto)]
// Places that take elements one after another.
pub mod front;
pub mod sink;

#[cfg(test)]
mod tests {
    use crate::front::Front;
    use crate::sink::Sink;
    use std::alloc::{AllocError, Global};

    #[test]
    fn a_list_grows(rt: HostRuntime) -> Result<(), AllocError> {
        let mut list = Vec::new(rt.alloc());
        Sink::put(&mut list, 7u8)?;
        Sink::put(&mut list, 8u8)?;
        assert_eq!(rt; list.as_slice(), [7, 8].as_slice());
        Ok(())
    }

    #[test]
    fn a_front_fills(rt: HostRuntime) {
        let mut list = [1u8, 2, 3];
        let mut front = Front {
            list: &mut list[0..2],
            filled: 0,
        };
        assert!(rt; front.put(7).is_ok());
        assert!(rt; front.put(8).is_ok());
        assert!(rt; front.put(9).is_err());
        assert_eq!(rt; front.filled, 2);
        assert!(rt; list == [7, 8, 3]);
    }
}
