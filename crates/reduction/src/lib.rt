// The reduction over one lent stretch of elements: the opening, the tensors with their tables, the claims, the batching and its weights, the
// initial sum and the closing value. Nothing in it allocates: `layout` says where each part of the stretch lies.
//
// `steps` writes: each step forms its parts, and what lies before them stays as it was. `answers` reads. Below them `over` has the same over
// slices that know no layout, since a call that writes several parts beside a struct of references loses what is known of the others.
#![tactic(auto)]

pub mod answers;
pub mod laws;
pub mod layout;
pub mod opened;
mod over;
mod parts;
pub mod steps;
