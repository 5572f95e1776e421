// What every call that writes into a lent buffer shares: bytes and texts put at a position. Its contracts cite
// `specs/Put.antt`.
#![tactic(auto)]

pub mod put;
