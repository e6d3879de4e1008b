//! The steps that lock tables share: questions about the wants of one request, changes of them, and whether
//! a request is granted behind earlier ones.

pub use crate::among_wants::{
    agree, all_agree_in, are_alike_in, is_alike, is_pooled, is_pooled_in, level_in, names_key,
    reach_level, room_beside, some_in_the_way,
};
pub use crate::grant::{grant_of, is_notified_of};
pub use crate::granting::{
    are_fitting, is_among, is_blocked, is_blocked_among, is_fitting, is_granted,
};
pub use crate::rewriting::{changed_group, changed_wants, remove_keys, write_like, write_request};
pub use crate::status_steps::{with_owner, with_waiter};
