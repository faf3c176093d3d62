//! The settings of Dired: which names are omitted, how many versions are kept, and which command is guessed for files (GNU
//! Emacs Manual, "Dired Deletion" and "Shell Commands in Dired"; Dired-X Manual, "Omitting Files in Dired" and "Shell
//! Command Guessing").
#![tactic(auto)]

mod checking;
mod fault;
mod laws;
mod omitter;
mod reading;
mod rules;
mod settings;
mod tables;
mod values;

pub use fault::SettingsFault;
pub use laws::keys_stand_in_order;
pub use omitter::Omitter;
pub use reading::read_settings;
pub use rules::Rules;
pub use settings::Settings;
