// The report of a round, checked head by head.
ghost use Rattle.std.specs.Prelude.{◌≡◌, ℕ, ◌<◌, Bool, true, false, not, ◌&&◌, ◌==◌, slice_index};
ghost use Rattle.sets.specs.Sets.{bit};
ghost use Rattle.heads.specs.Rules.{due, strict, false_alarm};
ghost use Rattle.votes.specs.Rounds.{sent, heard_of, idle_noise, late_breach, report_breach};
ghost use Rattle.votes.specs.Calls.{breach_in};

use crate::faults::VoteFault;
use crate::round::{Reception, Report, Round};
use heads::method::Method;

// Whether a head that does not run hears something or is alarmed.
fn idle_noise(r: Reception) -> bool
    ensures { result ≡ idle_noise r.runs r.word r.alarm }
{
    !r.runs && (r.word != 0 || r.alarm)
}

// Whether a head is in the first set and not in the second.
fn only_in(set: u64, other: u64, i: usize) -> bool
    ensures { result ≡ bit set i && not (bit other i) }
{
    sets::has(set, i) && !sets::has(other, i)
}

// Whether a word has a head that did not send.
fn has_stranger(senders: u64, word: u64) -> bool
    ensures { result ≡ false → (j : ℕ) → j < 64 → (bit word j && not (bit senders j)) ≡ false }
{
    sets::without(word, senders) != 0
}

// How many of the senders a word has.
pub fn heard_of(senders: u64, word: u64) -> u32
    ensures { result ≡ heard_of senders word }
{
    sets::size(sets::shared(word, senders))
}

// Whether a running head lacks an alarm that is due.
fn lacks_alarm<B, V: Method<B>>(method: V, c: u32, t: u32, r: Reception) -> bool
    ensures { result ≡ r.runs && (due V.Method.scheme c t && not r.alarm) }
{
    r.runs && method.due(c, t) && !r.alarm
}

// Whether an alarm is false in a vote that refuses it.
fn refused_alarm<B, V: Method<B>>(method: V, c: u32, t: u32, r: Reception) -> bool
    ensures { result ≡ strict V.Method.scheme && (r.alarm && false_alarm c t) }
{
    method.strict() && r.alarm && t == c
}

// The hear word of a head; 0 for a number that names none.
fn word_at(words: &[u64], head: usize) -> u64
    ensures { result ≡ slice_index words.now head }
{
    words.get(head).copied().unwrap_or(0)
}

// What a report says of a head.
fn reception(running: u64, report: Report<'_>, head: usize) -> Reception
    ensures { result ≡ record { head = head; runs = bit running head; word = slice_index report.entry.words.now head; alarm = bit report.entry.alarms head } }
{
    Reception {
        head,
        runs: sets::has(running, head),
        word: word_at(report.words, head),
        alarm: sets::has(report.alarms, head),
    }
}

// Whether a head neither runs nor hears anything, and is none of the heads marked. Where these are those that send or are
// alarmed, it breaks no rule; most numbers name no head, and are passed over by this.
fn is_out(marked: u64, r: Reception) -> bool
    ensures { result ≡ (not r.runs && (r.word == 0) && not (bit marked r.head)) }
{
    !r.runs && r.word == 0 && !sets::has(marked, r.head)
}

impl<V: Copy> Round<V> {
    // Checks a head whose word has senders alone; c heads sent.
    fn check_late<B>(self, c: u32, r: Reception) -> Result<(), VoteFault>
    where
        V: Method<B>,
        requires { c ≡ sent self.senders }
        ensures { breach_in result ≡ late_breach V.Method.scheme self.senders self.number r.runs r.word r.alarm r.head }
    {
        let (round, head) = (self.number, r.head);
        if only_in(self.senders, r.word, head) {
            return Err(VoteFault::OwnUnheard { round, head });
        }
        let t = heard_of(self.senders, r.word);
        if lacks_alarm::<B, V>(self.method, c, t, r) {
            return Err(VoteFault::AlarmMissing { round, head });
        }
        if refused_alarm::<B, V>(self.method, c, t, r) {
            return Err(VoteFault::FalseAlarm { round, head });
        }
        Ok(())
    }

    // Checks a report, heads 0 to 63 in order, up to the first rule that it breaks.
    pub(crate) fn check_report<B>(self, running: u64, report: Report<'_>) -> Result<(), VoteFault>
    where
        V: Method<B>,
        ensures { breach_in result ≡ report_breach V.Method.scheme running self.senders self.number report.entry.words.now report.entry.alarms }
    {
        let (round, senders) = (self.number, self.senders);
        let c = sets::size(senders);
        let marked = sets::joined(senders, report.alarms);
        let mut found = Ok(());
        // Kept: a rule of the project: nested loops over hearer and sender, left by a label at the first breach.
        'check: for head in 0..64 {
            let r = reception(running, report, head);
            if is_out(marked, r) {
                continue;
            }
            if idle_noise(r) {
                found = Err(VoteFault::IdleNoise { round, head });
                break 'check;
            }
            if has_stranger(senders, r.word) {
                for other in 0..64 {
                    if only_in(r.word, senders, other) {
                        found = Err(VoteFault::NotSender { round, head, other });
                        break 'check;
                    }
                }
            }
            found = self.check_late::<B>(c, r);
            if found.is_err() {
                break 'check;
            }
        }
        found
    }
}
