//! The laws of events, of lists of events and of whatever happens.
pub use crate::parts::laws::{
    events_happen, headline_holds, headline_holds_anyhow, one_run, one_run_anyhow, one_step,
    one_step_under, runs_only_grow, runs_only_grow_anyhow, steps_exist, steps_exist_under,
    time_can_pass,
};
