#![tactic(auto)]
// Worked examples of votes, as tests: each is proved, and then run.

#[cfg(test)]
mod tests {
    use ballots::kinds::{Recipe, Ticket};
    use ballots::{Ballot, Coded};
    use channels::clear::ClearChannel;
    use channels::dead::DeadSpells;
    use detectors::counting::CountingDetector;
    use detectors::interference::Interference;
    use driving::drive;
    use heads::ballots_heard::ballots_heard;
    use heads::bitwise::Bitwise;
    use heads::head::Head;
    use heads::method::Method;
    use heads::short::Short;
    use heads::split::Split;
    use listings::page::list_vote;
    use managers::rotation::Rotation;
    use parts::channel::Channel;
    use parts::detector::Detector;
    use parts::manager::Manager;
    use parts::spells::{Spell, Spells};
    use recordings::listing::Outcome;
    use recordings::slices::{HEADS, ROUNDS};
    use std::alloc::AllocError;
    use std::test::Fail;
    use votes::faults::{Refused, VoteFault};
    use votes::stages::{Figures, HeardRound, Roll, Vote};

    // Why a call was refused, without what it hands back.
    // Kept: taken apart here, since what is handed back is let go by its own type.
    fn fault_of<T: Drop>(refused: Refused<T>) -> VoteFault {
        let Refused { back: _, fault } = refused;
        fault
    }

    // The vote of the first n heads of the table, by one method.
    fn begun<B: Ballot, V: Method<B> + Drop>(
        method: V,
        table: &mut [Head<B>],
        n: usize,
    ) -> Result<Vote<V>, VoteFault> {
        let mut roll = Roll::new();
        // Kept: each record is read before the whole table is lent to enrolling, so that no iterator can hold it.
        for i in 0..n {
            let first = table.get(i).ok_or(VoteFault::RollFull)?.first;
            roll = roll.enroll(table, first).map_err(fault_of)?;
        }
        roll.begin(method).map_err(fault_of)
    }

    // A round that is opened and heard, or withdrawn where its report is refused.
    fn heard<B: Ballot, V: Method<B> + Drop>(
        vote: Vote<V>,
        table: &mut [Head<B>],
        turns: u64,
        words: &[u64],
        alarms: u64,
    ) -> Result<HeardRound<V>, VoteFault> {
        let open = vote.open(table, turns).map_err(fault_of)?;
        match open.hear(table, words, alarms, 0) {
            Ok(round) => Ok(round),
            Err(Refused { back, fault }) => {
                let _ = back.withdraw();
                Err(fault)
            }
        }
    }

    // The number of the rule that a vote's first round breaks, or 0 where it is heard.
    // Kept: the values that the tests expect are these numbers.
    fn first_round<B: Ballot, V: Method<B> + Drop>(
        method: V,
        table: &mut [Head<B>],
        turns: u64,
        words: &[u64],
        alarms: u64,
    ) -> u32 {
        let vote = match begun(method, table, words.len()) {
            Ok(vote) => vote,
            Err(fault) => return fault.refusal().number,
        };
        match heard(vote, table, turns, words, alarms) {
            Ok(_) => 0,
            Err(fault) => fault.refusal().number,
        }
    }

    // So many rounds, driven without stops.
    // Kept: the parameters are those of driving.
    fn driven<B: Ballot, V: Method<B> + Drop, C: Channel, D: Detector, M: Manager>(
        rounds: u32,
        begun: Vote<V>,
        table: &mut [Head<B>],
        list: &mut [u64],
        channel: &C,
        detector: &D,
        manager: &mut M,
    ) -> Result<Vote<V>, VoteFault> {
        let mut vote = begun;
        for _ in 0..rounds {
            let round = drive(vote, table, 0, list, channel, detector, manager).map_err(fault_of)?;
            vote = round.vote;
        }
        Ok(vote)
    }

    fn recipe(number: u16) -> Recipe {
        Recipe::from_code(number)
    }

    // Two heads that hear only themselves: an alarm is due at exactly half.
    #[test]
    fn half_of_the_messages_alarms(rt: HostRuntime) {
        let mut table = [Head::new(recipe(41)), Head::new(recipe(38))];
        assert_eq!(rt; first_round(Short, &mut table, 3, &[1, 2], 0), 13);
        assert_eq!(rt; first_round(Short, &mut table, 3, &[3, 3], 0), 0);
    }

    // With both alarms the same round is heard, and the estimates stay.
    #[test]
    fn an_alarm_keeps_the_estimate(rt: HostRuntime) {
        let mut table = [Head::new(recipe(41)), Head::new(recipe(38))];
        assert_eq!(rt; first_round(Short, &mut table, 3, &[1, 2], 3), 0);
        assert_eq!(rt; table[0].estimate.code(), 41);
        assert_eq!(rt; table[1].estimate.code(), 38);
    }

    // Without alarms every head takes the least ballot.
    #[test]
    fn the_least_ballot_is_taken(rt: HostRuntime) {
        let mut table = [Head::new(recipe(41)), Head::new(recipe(38))];
        assert_eq!(rt; first_round(Short, &mut table, 3, &[3, 3], 0), 0);
        assert_eq!(rt; table[0].estimate.code(), 38);
    }

    // Three senders and no alarm: two heard suffice in a short vote, one in a bit vote.
    #[test]
    fn three_senders(rt: HostRuntime) {
        let mut table = [
            Head::new(recipe(1)),
            Head::new(recipe(2)),
            Head::new(recipe(3)),
            Head::new(recipe(4)),
        ];
        assert_eq!(rt; first_round(Short, &mut table, 7, &[7, 7, 7, 3], 0), 0);
        assert_eq!(rt; first_round(Short, &mut table, 7, &[7, 7, 7, 1], 0), 13);
        assert_eq!(rt; first_round(Bitwise, &mut table, 7, &[7, 7, 7, 1], 0), 0);
        assert_eq!(rt; first_round(Bitwise, &mut table, 7, &[7, 7, 7, 0], 0), 13);
    }

    // A false alarm is refused in a split vote, and borne in a bit vote.
    #[test]
    fn false_alarms(rt: HostRuntime) {
        let mut table = [Head::new(recipe(5)), Head::new(recipe(9))];
        assert_eq!(rt; first_round(Split, &mut table, 0, &[3, 3], 1), 14);
        assert_eq!(rt; first_round(Bitwise, &mut table, 3, &[3, 3], 1), 0);
    }

    // Grade 7, tank 60 comes before grade 3, tank 5.
    #[test]
    fn the_least_ticket(rt: HostRuntime) -> Result<(), Fail> {
        let table = [
            Head::new(Ticket::from_code(197)),
            Head::new(Ticket::from_code(508)),
        ];
        match ballots_heard(&table, 3).least {
            Some(least) => {
                assert_eq!(rt; least.code(), 508);
                Ok(())
            },
            None => Err(Fail::new("no ballot")),
        }
    }

    // A recording of one round of a short vote, in which both heads send and hear each other, is listed on a page of the
    // caller's; a page that is a byte too short has no room for it.
    #[test]
    fn a_recording_is_listed_on_a_page(rt: HostRuntime) -> Result<(), AllocError> {
        let bytes = [
            86, 72, 1, 1, 2, 41, 0, 38, 0, 82, 68, 3, 0, 0, 0, 0, 0, 0, 0, 0, 0, 0, 0, 0, 0, 0, 0,
            0, 0, 0, 0, 0, 0, 0, 0, 3, 0, 0, 0, 0, 0, 0, 0, 3, 0, 0, 0, 0, 0, 0, 0,
        ];
        let none = Figures {
            round: 0,
            senders: 0,
            alarms: 0,
            decided: 0,
            running: 0,
        };
        let mut rounds = vec![in rt.alloc(); none; ROUNDS]?;
        let mut heads = [Outcome::Running; HEADS];
        let mut page = [0u8; 40];
        let listed = list_vote(&bytes, rounds.as_mut_slice(), &mut heads, &mut page);
        let length = listed.unwrap_or(0);
        assert_eq!(rt; length, 28);
        let text: &[u8] = b"R 1 2 0 0 2\nH 0 r -\nH 1 r -\n";
        let shown = &page[0..28];
        assert!(rt; shown == text, "another listing");
        let short = list_vote(&bytes, rounds.as_mut_slice(), &mut heads, &mut page[0..27]);
        assert!(rt; short.is_err(), "room where there is none");
        Ok(())
    }

    // A short vote that is driven by piled layers: in rounds 1 and 2 the channel is dead and all heads are alarmed; in
    // round 3 head 2 has the turn and is heard by all, and in round 4 they decide its recipe.
    #[test]
    fn a_driven_vote_ends(rt: HostRuntime) -> Result<(), Fail> {
        let mut table = [
            Head::new(recipe(41)),
            Head::new(recipe(38)),
            Head::new(recipe(40)),
        ];
        let mut spells = Spells::new();
        let _ = spells.add(Spell { first: 1, last: 2 });
        let channel = DeadSpells::new(spells, DeadSpells::new(spells, ClearChannel));
        let detector = Interference::new(spells, CountingDetector);
        let mut manager = Rotation::new();
        let mut list = [0u64; 3];
        let vote = match begun(Short, &mut table, 3) {
            Ok(vote) => vote,
            Err(_) => return Err(Fail::new("not begun")),
        };
        match driven(
            4,
            vote,
            &mut table,
            &mut list,
            &channel,
            &detector,
            &mut manager,
        ) {
            Ok(vote) => assert_eq!(rt; vote.running(&table).unwrap_or(1), 0),
            Err(_) => return Err(Fail::new("refused")),
        }
        assert_eq!(rt; table[0].estimate.code(), 40);
        assert_eq!(rt; manager.last_told(), 4);
        Ok(())
    }
}
