//! What a client does: its whole turn as rows over what it knows. A row is a function from the client's state and an
//! event to the turn's full entries, in their exact order.
//!
//! The definitions stand in `specs/`: what the client knows, a field at a time (`Imports`, `Calls`, `Facts`, `Caches`,
//! `States`), what its calls look at and do (`Looks`, `Wants`, `Known`, `Advances`, `Glimpses`, `Starts`, `Slots`), and its
//! turns (`Locks`, `Sending`, `Recovery`, `Messages`, `Rows`).
#![tactic(auto)]
