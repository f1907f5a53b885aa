//! `CallBudget`: the number of calls allowed, and the number made.
ghost use Rattle.std.specs.Prelude.{◌≡◌, ℕ, ◌≤◌, ◌↔◌, suc, min, IsTrue, Some};

/// The number of calls allowed, and the number made. If there is a limit, the number made is never above the limit.
#[derive(Clone, Copy)]
pub struct CallBudget {
    /// The number of calls allowed. `None` if there is no limit.
    pub most: Option<u32>,
    /// The number of calls made. Stays at `u32::MAX` if there is no limit and that many calls were made.
    pub made: u32,
    pub ghost within: { (n : ℕ) → most ≡ Some n → made ≤ n },
}

impl CallBudget {
    /// Returns a budget that allows `most` calls, with no call made. `None` is no limit.
    pub fn of(most: Option<u32>) -> CallBudget
        ensures most { result.most ≡ most }
        ensures made { result.made ≡ 0 }
    {
        CallBudget { most, made: 0 }
    }

    /// Whether there is a limit and all allowed calls were made.
    pub fn is_used_up(&self) -> bool
        ensures { IsTrue result ↔ (self.now.most ≡ Some self.now.made) }
    {
        self.most == Some(self.made)
    }

    /// Counts one more call. Requires that the budget isn't used up.
    pub fn spend(&mut self)
        requires { self.old.most ≡ Some self.old.made → ⊥ }
        ensures most { self.new.most ≡ self.old.most }
        ensures made { (n : ℕ) → self.old.most ≡ Some n → self.new.made ≡ suc self.old.made }
        ensures counted { self.new.made ≡ min 4294967295 (suc self.old.made) }
    {
        match self.most {
            Some(_most) => self.made += 1,
            None => self.made = self.made.saturating_add(1),
        }
    }
}
