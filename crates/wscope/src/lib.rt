//! What the words of a query stand for: its columns, functions, types and windows, and where its expressions stand.
//!
//! - Gives the columns of a source and of an answer, functions by their names, what each form of expression takes and
//!   gives, the type of an expression, windows with what they copy, walks that look for a node of an expression or of a whole
//!   query, and the scope of a SELECT, which finds its names and windows by an index.
//! - Promises: each answer is that of its definition; a walk goes as deep as the nesting alone and takes no memory.
//! - Asks nothing. A name that no column has stands for none: its type is that of NULL.
//! - Leaves to `wrules` what a query may not say, and to `wresolve` the form that execution reads.
//!
//! Read `specs/Functions.antt`, `specs/Signature.antt`, `specs/Types.antt`, `specs/Sources.antt`, then
//! `specs/Seeking.antt`, `specs/Scope.antt`, `specs/Windows.antt`, `specs/Scoped.antt` and
//! `specs/Laws.antt`.
#![tactic(auto)]

mod called;
mod comparing;
mod data_type;
mod earlier;
mod expanding;
mod finding;
mod full_window;
mod function;
mod grouping;
mod indexing;
mod laws;
mod look;
mod names;
mod naming;
mod output;
mod outputs;
mod scope;
mod scoping;
mod seeking;
mod signature;
mod source;
mod typing;
mod window_index;

pub use data_type::DataType;
pub use earlier::Earlier;
pub use finding::found_if;
pub use full_window::{FullEntry, FullWindow};
pub use function::Function;
pub use laws::types_given;
pub use look::Look;
pub use names::{has_column, output_name, place_named};
pub use naming::function_of;
pub use outputs::{declared_columns, known, output_columns};
pub use scope::Scope;
pub use scoping::{any_anywhere, any_in_entries, any_in_option, any_shown};
pub use seeking::{NodeTest, any_below, any_node};
pub use signature::{Gives, Signature, Takes, signature_of};
pub use source::SourceColumn;
pub use typing::type_of;
pub use window_index::WindowIndex;
