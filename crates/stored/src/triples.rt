// SPDX-License-Identifier: MIT OR Apache-2.0
// The run's floats, three by three, in the order of the form; and the mathematics of such a row.
ghost use Rattle.std.specs.Prelude.{◌≡◌};
ghost use Rattle.stored.specs.Layout.{triples_of};
ghost use Rattle.stored.specs.Taken.{body_from};

use plan::{Plan, Settings};
use run::{Body, Slopes, Track, Trial};
use startup::{Places, Widest};
use sums::{Fixed, Sums};
use triple::{State, Triple};

pub fn triples_of(b: Body) -> [Triple; 41]
    ensures { result ≡ triples_of b }
{
    let r = b.places.r;
    let v = b.places.v;
    let a = b.a;
    let l1 = b.slopes.l1;
    let l2 = b.slopes.l2;
    let l3 = b.slopes.l3;
    let state_r = b.track.state.r;
    let state_v = b.track.state.v;
    let s = b.track.sums.s;
    let big_s = b.track.sums.big_s;
    let trial_r = b.trial.state.r;
    let trial_v = b.trial.state.v;
    let fa = b.trial.fixed.fa;
    let fb = b.trial.fixed.fb;
    let met = Triple {
        x: b.widest.delta,
        y: b.widest.mag,
        z: b.track.t,
    };
    let settings = Triple {
        x: b.plan.settings.h,
        y: b.plan.settings.corrector_tol,
        z: b.plan.settings.startup_tol,
    };
    let plan = Triple {
        x: b.plan.t0,
        y: b.plan.tf,
        z: b.plan.h,
    };
    [
        r[0], r[1], r[2], r[3], r[4], r[5], r[6], r[7], r[8], v[0], v[1], v[2], v[3], v[4], v[5],
        v[6], v[7], v[8], a[0], a[1], a[2], a[3], a[4], a[5], a[6], a[7], a[8], l1, l2, l3,
        state_r, state_v, s, big_s, trial_r, trial_v, fa, fb, met, settings, plan,
    ]
}

// The mathematics of these floats and counts.
pub fn body_from(f: [Triple; 41], n: [u64; 6], samples: u8) -> Body
    ensures { result ≡ body_from f n samples }
{
    let settings = Settings {
        h: f[39].x,
        corrector_tol: f[39].y,
        startup_tol: f[39].z,
        max_corrector_iters: n[0],
        max_startup_iters: n[1],
        max_steps: n[2],
        samples,
    };
    let plan = Plan {
        settings,
        t0: f[40].x,
        tf: f[40].y,
        h: f[40].z,
    };
    let places = Places {
        r: [f[0], f[1], f[2], f[3], f[4], f[5], f[6], f[7], f[8]],
        v: [f[9], f[10], f[11], f[12], f[13], f[14], f[15], f[16], f[17]],
    };
    let a = [
        f[18], f[19], f[20], f[21], f[22], f[23], f[24], f[25], f[26],
    ];
    let slopes = Slopes {
        l1: f[27],
        l2: f[28],
        l3: f[29],
    };
    let widest = Widest {
        delta: f[38].x,
        mag: f[38].y,
    };
    let state = State { r: f[30], v: f[31] };
    let sums = Sums {
        s: f[32],
        big_s: f[33],
    };
    let track = Track {
        t: f[38].z,
        steps: n[4],
        state,
        sums,
    };
    let end = State { r: f[34], v: f[35] };
    let fixed = Fixed {
        fa: f[36],
        fb: f[37],
    };
    let trial = Trial { state: end, fixed };
    Body {
        plan,
        places,
        a,
        slopes,
        widest,
        startup_iters: n[3],
        track,
        trial,
    }
}
