// The codes of a sub-frame: GSM 06.10 sections 5.2.11 to 5.2.15.
ghost use Rattle.frame_codec.specs.Frame.{SubFits};
ghost use Rattle.rpe_ltp.specs.SubFrame.{IsCoded};

use crate::grid::grid_of;
use crate::lag_search::best_lag;
use crate::long_term::LongTerm;
use crate::pulse_codes::apcm;
use crate::weighting::weight;
use frame_codec::SubParams;

/// The codes of the next sub-frame.
#[inline]
pub(crate) fn codes(state: &LongTerm, d: &[i16; 40]) -> SubParams
    ensures coded { IsCoded d.now state.now.history result }
    ensures fits { SubFits result }
{
    let (nc, bc) = best_lag(d, state.history());
    let e = state.residual(d, nc, bc);
    let x = weight(&e);
    let (mc, xm) = grid_of(&x);
    let (xmaxc, xmc) = apcm(&xm);
    SubParams {
        nc,
        bc,
        mc,
        xmaxc,
        xmc,
    }
}

#[cfg(test)]
mod tests {
    use super::*;

    #[test]
    fn silence_and_the_least_values(rt: HostRuntime) {
        let silence = LongTerm::new().code(&[0; 40]);
        assert_eq!(rt;
            (silence.nc, silence.bc, silence.mc, silence.xmaxc),
            (40, 0, 0, 0)
        );
        assert_eq!(rt; silence.xmc, [4; 13]);
        let least = LongTerm::new().code(&[-32768; 40]);
        assert_eq!(rt; (least.nc, least.bc, least.mc, least.xmaxc), (40, 0, 0, 63));
        assert_eq!(rt; least.xmc, [0; 13]);
    }

    #[test]
    fn the_lag_becomes_the_period_of_a_wave(rt: HostRuntime) {
        // a period of 45 samples, three of each value
        let period = [
            4000, 9000, 12000, 8000, 1000, -3000, -7000, -9000, -6000, -5000, -2500, -1200, -600,
            -300, -100,
        ];
        let mut time = 0usize;
        let mut long_term = LongTerm::new();
        for (nc, bc, mc, xmaxc, xmc) in [
            (40, 0, 1, 63, [5, 7, 7, 6, 4, 2, 1, 1, 1, 2, 3, 3, 3]),
            (44, 1, 3, 59, [3, 4, 6, 7, 6, 4, 3, 1, 1, 2, 2, 3, 3]),
            (46, 2, 1, 54, [4, 4, 3, 5, 7, 7, 6, 4, 2, 1, 1, 2, 2]),
            (45, 3, 1, 34, [1, 6, 2, 2, 6, 5, 2, 7, 4, 2, 5, 5, 0]),
            (45, 3, 2, 26, [1, 4, 2, 2, 3, 6, 2, 1, 4, 2, 1, 7, 1]),
            (45, 3, 0, 35, [7, 3, 3, 3, 3, 4, 4, 3, 4, 4, 4, 3, 3]),
        ] {
            let mut d = [0i16; 40];
            for k in 0..40 {
                d[k] = period[time % 45 / 3];
                time = time.wrapping_add(1);
            }
            let sub = long_term.code(&d);
            assert_eq!(rt; (sub.nc, sub.bc, sub.mc, sub.xmaxc), (nc, bc, mc, xmaxc));
            assert_eq!(rt; sub.xmc, xmc, "level {xmaxc}");
        }
    }
}
