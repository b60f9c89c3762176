//! The samples of one series.

ghost use Rattle.std.specs.Prelude.{◌≡◌, ◌≤◌, true, length};
ghost use Rattle.pf_block.specs.Samples.{rises, window_of, until};

use pf_base::Sample;

/// The number of samples that are not after a time.
pub fn count_until(samples: &[Sample], time: i64) -> usize
    requires { rises samples.now ≡ true }
    ensures within { result ≤ length samples.now }
    ensures value { result ≡ until time samples.now }
{
    samples.partition_point(|s| s.time <= time)
}

/// The samples after `after`, up to and with `upto`.
pub fn within(samples: &[Sample], after: i64, upto: i64) -> &[Sample]
    requires { rises samples.now ≡ true }
    ensures { result.now ≡ window_of samples.now after upto }
{
    let until = &samples[..count_until(samples, upto)];
    &until[count_until(until, after)..]
}
