//! The paths of the leaves of modules as lines print them and as Verilog names are made from them: the name of a
//! declaration, and the steps to the leaf within its type (FIRRTL spec, "References"). One leaf is told by its number
//! (`leaf_text`), and all leaves of a module in their order (`leaf_texts`), as are the arrays of its memories
//! (`array_texts`; FIRRTL spec, "Memories").
#![tactic(auto)]

mod all_arrays;
mod all_leaves;
mod bundle_field;
mod declarations;
mod declared_leaf;
mod declared_name;
mod leaf_step;
mod one_leaf;
mod type_path;
mod type_texts;
mod word_texts;

pub use all_arrays::array_texts;
pub use all_leaves::leaf_texts;
pub use declarations::declared_names;
pub use one_leaf::leaf_text;
