// Driving one round.
ghost use Rattle.driving.specs.Drives.{by_parts, Drives};

use crate::report::Round;
use ballots::Ballot;
use heads::head::Head;
use heads::method::Method;
use parts::channel::Channel;
use parts::detector::Detector;
use parts::manager::Manager;
use votes::faults::{Refused, VoteFault};
use votes::lowest_idle;
use votes::stages::{HeardRound, Vote};

// One round of the vote by the parts' rules: turns from the contention manager, words from the channel, alarms from the
// collision detector; the manager is told of the round that was heard. The list gets the channel's words.
// Kept: seven parameters, since each is the caller's own, and three of them are of types of their own.
pub fn drive<B: Ballot, V: Method<B> + Drop, C: Channel, D: Detector, M: Manager>(
    vote: Vote<V>,
    table: &mut [Head<B>],
    stops: u64,
    list: &mut [u64],
    channel: &C,
    detector: &D,
    manager: &mut M,
) -> Result<HeardRound<V>, Refused<Vote<V>>>
    ensures { Drives B.Ballot.earlier M.Manager.tells M.Manager.meaning vote (by_parts V.Method.scheme vote table.old stops (C.Channel.meaning channel.now) (D.Detector.meaning detector.now) (M.Manager.meaning manager.old)) list.old manager.old result table.new list.new manager.new }
{
    let running = match vote.running(table) {
        Ok(running) => running,
        Err(fault) => return Err(Refused { back: vote, fault }),
    };
    let round = vote.rounds() + 1;
    if list.len() != vote.heads() {
        return Err(Refused {
            back: vote,
            fault: VoteFault::WordCount { round },
        });
    }
    let turns = manager.turns(round, running);
    let open = vote.open(table, turns)?;
    if let Some(head) = lowest_idle(stops, running) {
        return Err(Refused {
            back: open.withdraw(),
            fault: VoteFault::IdleStop { round, head },
        });
    }
    let senders = open.senders();
    let driven = Round {
        number: round,
        running,
        senders,
    };
    driven.put_words(channel, list);
    let alarms = driven.alarms(detector, list);
    match open.hear(table, list, alarms, stops) {
        Ok(heard) => {
            manager.tell(round, sets::size(senders), alarms);
            Ok(heard)
        }
        Err(Refused { back, fault }) => Err(Refused {
            back: back.withdraw(),
            fault,
        }),
    }
}
