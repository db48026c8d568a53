//! Home pages, whoever reads them.
ghost use Rattle.std.specs.Prelude.{◌≡◌, ◌<◌, ◌≤◌, ℕ, Bool, IsTrue, IfOk};
ghost use Rattle.alp_base.specs.declared.allowance.Allowance.{Allowance as Limit};
ghost use Rattle.alp_pages.specs.Pages.{Pages as PagesOf};
ghost use Rattle.alp_pages.specs.Reading.{HasRead};

use alp_base::{PageRef, VaultFault};

/// Home pages that are read one by one, from buffers or from a log.
pub trait PageReader {
    /// Whether the pages are told.
    ghost tells: { Self → Bool };

    /// How many there are.
    ghost home: { Self → ℕ };

    /// What each one holds.
    ghost pages: { Self → PagesOf };

    /// How often a read has failed.
    ghost faults: { Self → ℕ };

    /// How many further changing calls pass, where a number was set.
    ghost allowance: { Self → Limit };

    /// The second is the first after some reads.
    ghost ReadOn: { Self → Self → Type 0 };

    fn page(&mut self, at: u32) -> Result<PageRef, VaultFault>
        requires { at < home self.old }
        ensures page { IsTrue (tells self.old) → IfOk result (λ p. p ≡ pages self.old at) }
        ensures read { HasRead ReadOn faults allowance self.old self.new result };

    /// To read nothing changes nothing.
    ghost still: { (a : Self) → ReadOn a a };

    /// Reads follow reads.
    ghost then_on: { (a b c : Self) → ReadOn a b → ReadOn b c → ReadOn a c };

    /// Reads change no page.
    ghost same_pages: { (a b : Self) → ReadOn a b → pages b ≡ pages a };

    ghost same_home: { (a b : Self) → ReadOn a b → home b ≡ home a };

    ghost same_tells: { (a b : Self) → ReadOn a b → tells b ≡ tells a };

    ghost same_allowance: { (a b : Self) → ReadOn a b → allowance b ≡ allowance a };

    /// The count of faults does not fall.
    ghost later: { (a b : Self) → ReadOn a b → faults a ≤ faults b };
}
