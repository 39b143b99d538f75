//! Times and lengths of waves. Times are in ticks.
ghost use Rattle.std.specs.Prelude.{◌≡◌, All, IsTrue};
ghost use Rattle.waveform.specs.IsWave.{IsWave};
ghost use Rattle.call_parts.specs.InputLengths.{HasLengths, Spans};

use waveform::Wave;

/// How many components each vertex has, and how many values there are.
#[derive(Clone, Copy)]
pub(crate) struct Lengths {
    pub components: u32,
    pub values: usize,
}

/// Whether each sample of a wave has these lengths.
pub(crate) fn has_lengths(wave: &Wave, lengths: Lengths) -> bool
    ensures lengths { IsTrue result → All (HasLengths lengths.components lengths.values) wave.now }
    ensures wave { IsWave wave.now }
{
    for i in 0..wave.len() {
        let field = wave.field(i);
        if field.components != lengths.components || field.values.len() != lengths.values {
            return false;
        }
    }
    true
}

/// Whether a wave has one sample, or goes from a window's start to its end.
pub(crate) fn spans(wave: &Wave, window: (u64, u64)) -> bool
    ensures { IsTrue result → Spans window.0 window.1 wave.now }
{
    let last = wave.len() - 1;
    if last == 0 {
        return true;
    }
    wave.time(0) == window.0 && wave.time(last) == window.1
}
