//! What the host is asked of a tree: what stands at a path, with no link followed, and the programs that are started for what the
//! standard library has no call for. Nothing here changes the tree. What the host answers is trusted and not proved.
#![tactic(auto)]

mod children;
mod commands;
mod describing;
mod file_systems;
mod host_paths;
mod looking;
mod moves;
mod naming;
mod numbering;
mod owners;
mod reading;

pub use children::{sync_host, sync_root, sync_system};
pub use describing::{Known, is_target, meta_at};
pub use file_systems::FileSystems;
pub use looking::{Found, Looks, has_mode, is_same, kind_of, mode_of, open_found};
pub use moves::moved_path;
pub use naming::{is_empty_at, names_at};
pub use numbering::FileNumbers;
pub use owners::Owners;
pub use reading::read_all;
