//! Laws of the edited tree: where its paths go, what stands there, that it is a tree, and that each line is carried out.
#![tactic(auto)]

mod laws;

pub use laws::{
    edited_tree_is_a_tree, edited_tree_is_the_one, lines_are_carried_out, new_places_by_cases,
    paths_go_to_their_places, places_are_apart, the_shortest_path_is_told,
    victims_are_what_new_paths_replace,
};
