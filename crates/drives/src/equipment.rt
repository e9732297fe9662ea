// Channels and collision detectors, made as the table says.
use crate::one_of::OneOf;
use crate::plan::{ChannelKind, DetectorKind, Pair};
use channels::capture::CaptureChannel;
use channels::clear::ClearChannel;
use channels::recorded::RecordedChannel;
use detectors::counting::CountingDetector;
use detectors::recorded::RecordedDetector;
use detectors::squelch::SquelchDetector;
use parts::faults::PartFault;
use parts::spells::{Spell, Spells};
use parts::words::WordSlice;

pub type BareChannel<'a> = OneOf<ClearChannel, CaptureChannel, RecordedChannel<WordSlice<'a>>>;

pub type BareDetector<'a> = OneOf<
    CountingDetector,
    SquelchDetector,
    RecordedDetector<WordSlice<'a>>,
>;

// The spells of a layer. A number that is too large for a round becomes one that is no round either.
pub(crate) fn spells_of(pairs: &[Pair]) -> Result<Spells, PartFault> {
    let mut spells = Spells::new();
    for [first, last] in pairs {
        spells.add(Spell {
            first: u32::try_from(*first).unwrap_or(u32::MAX),
            last: u32::try_from(*last).unwrap_or(u32::MAX),
        })?;
    }
    Ok(spells)
}

// The capture channel of at most 64 positions. A number that is too large becomes one that is no position either.
fn capture_of(numbers: &[u64]) -> Result<CaptureChannel, PartFault> {
    let mut positions = [0; 64];
    for (position, number) in positions.iter_mut().zip(numbers) {
        *position = u16::try_from(*number).unwrap_or(u16::MAX);
    }
    CaptureChannel::new(positions.get(..numbers.len()).ok_or(PartFault::Unfit)?)
}

pub(crate) fn bare_channel(kind: ChannelKind<'_>) -> Result<BareChannel<'_>, PartFault> {
    match kind {
        ChannelKind::Clear => Ok(OneOf::First(ClearChannel)),
        ChannelKind::Capture(positions) => Ok(OneOf::Second(capture_of(positions)?)),
        ChannelKind::Recorded { n, words } => {
            Ok(OneOf::Third(RecordedChannel::new(WordSlice { words }, n as usize)?))
        }
    }
}

pub(crate) fn bare_detector(kind: DetectorKind<'_>) -> Result<BareDetector<'_>, PartFault> {
    match kind {
        DetectorKind::Counting => Ok(OneOf::First(CountingDetector)),
        DetectorKind::Squelch => Ok(OneOf::Second(SquelchDetector)),
        DetectorKind::Recorded { class, words } => {
            Ok(OneOf::Third(RecordedDetector::new(WordSlice { words }, class)?))
        }
    }
}
