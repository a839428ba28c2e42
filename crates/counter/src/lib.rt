//! The counter: its settings, its state, and the step of each event, as methods that change the
//! state in place.
#![tactic(auto)]

pub mod causes;
pub mod desk;
pub mod event;
pub mod flag;
pub mod inputs;
pub mod legality;
pub mod loading;
pub mod mode;
pub mod numbers;
pub mod outputs;
pub mod reading;
pub mod rules;
pub mod sampling;
pub mod state;
pub mod stepping;
pub mod wellformed;
