//! What a server was started on, as it was then.
use alp_journal::Opening;
use alp_vault::Vault;
use std::snapshot::Snapshot;

/// The vault of a server as it was when the server was started. It takes no bytes.
#[derive(Drop)]
pub struct Opened<V: Vault> {
    pub vault: Snapshot<V>,
}

impl<V: Vault> Opening for Opened<V> {
    ghost cells = { λ o. (V.Vault.held o.vault.value).cells };

    ghost notes = { λ o. (V.Vault.held o.vault.value).notes };

    ghost sizes = { λ o. V.Vault.volume o.vault.value };
}
