//! What a static library for C needs: an answer to bytes by a form, as a status and as problem details
//! in memory of the caller, and room that C holds from call to call.
#![tactic(auto)]

mod answer;
mod body;
mod detail_nodes;
mod details;
mod faults;
mod find;
mod lines;
mod loose;
mod node;
mod nodes_of_json;
mod place;
mod places;
mod read_tree;
mod room;
mod status;
mod telling;
mod value;
mod walk;

pub use answer::{check_json, is_valid_json, list_json, out_of_memory};
pub use body::{check_body, check_body_with_nodes, is_valid_body, list_body};
pub use faults::give_no_faults;
pub use node::Node;
pub use nodes_of_json::{check_json_with_nodes, value_of_json};
pub use place::Place;
pub use read_tree::ReadTree;
pub use room::Room;
pub use status::Status;
pub use value::{give_nothing, value_of_body};
