//! The theory of bytes, in words of its own: no message, lock or row of the product stands in it.
//!
//! - `Object`: one object. Lives lock extents of it, change it in their own memory and write the changes back; a target executes,
//!   is read, crashes and comes back without some of its transactions. A story is a list of entries, and each entry rests on
//!   the story before it (`specs/Object/Guards`).
//! - `Objects`: several targets, each with several objects, and lives that use them all: what a whole past says of one target and of
//!   a life there, what each of its lines may rest on, which of its lines make the story of one object and which the history
//!   of its bytes. The story of each object of an allowed past is allowed, so the laws hold object by object.
//! - `Files`: a file in stripes over objects, seen through layouts that may differ from call to call: where its stripes lie, what
//!   a change of the file does to each, the history of its bytes by stripe and offset, and where the bytes of a put come from.
#![tactic(auto)]

pub mod files_theorems;
pub mod object_theorems;
pub mod objects_theorems;
