// The step of a round, in the table itself.
ghost use Rattle.std.specs.Prelude.{◌≡◌, ◌≤◌, length};
ghost use Rattle.votes.specs.Rounds.{stepped, after};
ghost use Rattle.votes.specs.Reports.{reported};
ghost use Rattle.votes.specs.Passes.{noted, listened, recalls, take_at};
ghost use Rattle.votes.specs.Tables.{rewrite};

use crate::checks::heard_of;
use crate::enrolled::Enrolled;
use crate::listening::heard_again;
use crate::round::{Report, Round};
use ballots::Ballot;
use heads::head::{Ballots, Head, Heard, State};
use heads::method::Method;

// A running head that does not stop notes the ballots that it heard.
fn note<B: Copy>(stop: bool, ballots: Ballots<B>, h: Head<B>) -> Head<B>
    ensures { result ≡ noted stop ballots h.state h }
{
    match h.state {
        State::Running if !stop => Head { ballots, ..h },
        _ => h,
    }
}

// Kept: two passes and their call ask for a record to each word; each would have to say so of a struct's field as well.
impl<V: Copy> Round<V> {
    // In a round of ballots every head notes what it heard; the estimates stay.
    fn listen<B: Ballot>(self, table: &mut [Head<B>], report: Report<'_>)
    where
        V: Method<B>,
        requires long { length report.words.now ≤ length table.old }
        requires few { length report.words.now ≤ 64 }
        ensures { table.new ≡ listened B.earlier V.Method.scheme (length report.entry.words.now) self.number table.old report.entry.words.now report.entry.stops }
    {
        if !self.method.of_ballots(self.number) {
            return;
        }
        let n = report.words.len();
        let leaders = Enrolled { table, n }.leaders(self.senders);
        let mut last = 0;
        let mut ballots = Ballots::none();
        // Kept: the record is written by its number, since the whole table is read for each, and no iterator may lend it.
        for (i, &word) in report.words.iter().enumerate() {
            ballots = heard_again(table, leaders, word, last, ballots);
            last = word;
            table[i] = note(sets::has(report.stops, i), ballots, table[i]);
        }
    }

    // What a head hears, with the ballots that its record has noted.
    fn recall<B: Copy>(self, word: u64, alarm: bool, ballots: Ballots<B>) -> Heard<B>
    where
        V: Method<B>,
        ensures { result ≡ recalls V.Method.scheme self.senders self.number word alarm ballots }
    {
        Heard {
            count: heard_of(self.senders, word),
            ballots: if self.method.of_ballots(self.number) {
                ballots
            } else {
                Ballots::none()
            },
            alarm,
        }
    }

    // One head's record after the round: only a running head takes a step.
    fn step<B: Copy>(self, stop: bool, heard: Heard<B>, h: Head<B>) -> Head<B>
    where
        V: Method<B>,
        ensures { result ≡ stepped V.Method.scheme self.number stop heard h.state h }
    {
        match h.state {
            State::Running if stop => h.stopped(),
            State::Running => self.method.keeps(self.number, heard, h),
            State::Decided | State::Stopped => h,
        }
    }

    // Every head goes on from its own record.
    fn step_all<B: Copy>(self, table: &mut [Head<B>], report: Report<'_>)
    where
        V: Method<B>,
        requires { length report.words.now ≤ length table.old }
        ensures { table.new ≡ rewrite (take_at V.Method.scheme self.senders self.number (reported report.entry)) (length report.entry.words.now) table.old }
    {
        // Kept: zipped with the words, the records' loop was tried, and its invariant over two iterators was no plainer.
        for (i, &word) in report.words.iter().enumerate() {
            let h = table[i];
            let heard = self.recall(word, sets::has(report.alarms, i), h.ballots);
            table[i] = self.step(sets::has(report.stops, i), heard, h);
        }
    }

    // The records after the round.
    pub(crate) fn advance<B: Ballot>(self, table: &mut [Head<B>], report: Report<'_>)
    where
        V: Method<B>,
        requires long { length report.words.now ≤ length table.old }
        requires few { length report.words.now ≤ 64 }
        ensures { table.new ≡ after B.earlier V.Method.scheme (length report.entry.words.now) self.senders self.number table.old (reported report.entry) }
    {
        self.listen(table, report);
        self.step_all(table, report);
    }
}
