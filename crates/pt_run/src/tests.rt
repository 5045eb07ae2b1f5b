//! The runs of made scripts.

use crate::{Open, generate, reply_text, run_plain, run_shared};

#[test]
fn both_runs_of_a_made_script(rt: HostRuntime) {
    for number in 0..3 {
        let Ok(script) = generate(rt.alloc(), number) else {
            panic!(rt; "no memory")
        };
        let Ok(plain) = run_plain(rt.alloc(), &script) else {
            panic!(rt; "no memory")
        };
        let Ok(shared) = run_shared(&rt, rt.alloc(), &script, &Open) else {
            panic!(rt; "no memory")
        };
        assert_eq!(rt; plain.all().len(), shared.all().len());
        let Ok(one) = reply_text(rt.alloc(), script.format, &plain) else {
            panic!(rt; "no memory")
        };
        let Ok(two) = reply_text(rt.alloc(), script.format, &shared) else {
            panic!(rt; "no memory")
        };
        assert!(rt; one == two);
    }
}
