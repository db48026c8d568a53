//! What may cross threads and be let go, at any state.
use super::numbers::Numbers;
use crate::{Monitor, Pass, Story, Turn};

fn crosses<T: Send>() {}

fn is_shared<T: Sync>() {}

fn is_let_go<T: Drop>() {}

// A state that may cross threads.
fn sent<S: Story + Send>() {
    crosses::<Monitor<S>>();
    is_shared::<Monitor<S>>();
    crosses::<Pass<S>>();
    crosses::<Turn<S>>();
}

// Any state at all.
fn let_go<S: Story>() {
    is_let_go::<Pass<S>>();
}

// A state that may be let go.
fn all_let_go<S: Story + Drop>() {
    is_let_go::<Monitor<S>>();
}

#[test]
fn states_cross_threads(_rt: HostRuntime) {
    sent::<Numbers>();
    let_go::<Numbers>();
    all_let_go::<Numbers>();
}
