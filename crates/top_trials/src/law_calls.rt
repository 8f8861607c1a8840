//! Cases `laws`: calls of laws, each of which does nothing but return.

use sis_session::{
    changes_have_one_outcome, commands_end_once, commands_have_one_plan, served_commands_are_done,
    steps_keep_refinement, what_is_held_is_written,
};
use sis_top::{
    copies_are_served, runs_are_one, runs_keep_refinement, served_runs_refuse_nothing,
    told_runs_are_one,
};
use trial_cases::{CaseFault, put_line};

/// Calls the laws, and appends that they were called.
pub fn answer(out: &mut Vec<u8>) -> Result<(), CaseFault> {
    steps_keep_refinement();
    what_is_held_is_written();
    served_commands_are_done();
    commands_have_one_plan();
    commands_end_once();
    changes_have_one_outcome();
    runs_keep_refinement();
    served_runs_refuse_nothing();
    runs_are_one();
    told_runs_are_one();
    copies_are_served();
    put_line(out, b"called")?;
    Ok(())
}
