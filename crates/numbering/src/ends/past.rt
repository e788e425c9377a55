ghost use Rattle.std.specs.Prelude.{◌≡◌};
ghost use Rattle.table.specs.declared.token.Token.TheVariants.{Arm as ARM};
ghost use Rattle.numbering.specs.Ends.{times as times_of, past_head, past as past_of};
ghost use Rattle.numbering.specs.Behind.{tokens_of, behind};

use super::Filled;
use table::{Head, Token};

impl Filled<'_, '_> {
    // Past the last token there is nothing to go on to. (No `get`: the check does not cover yet that
    // what a field lends is lent again as a slice.)
    fn look(self, q: u16) -> u16
        ensures { result ≡ behind self.entry q }
    {
        let all = self.tokens.list.len() as u16;
        if self.place < q && q < all {
            self.ends[q as usize]
        } else {
            all
        }
    }

    fn times(self, n: u8, mut q: u16) -> u16
        ensures { result ≡ times_of n (behind self.entry) q }
    {
        for _ in 0..n {
            q = self.look(q);
        }
        q
    }

    // The last arm's part stands before the CLOSE of all arms.
    fn past_arm(self) -> u16
        ensures { result ≡ past_of (tokens_of self.entry) (behind self.entry) self.entry.place (ARM 0 0 0) }
    {
        let next = self.look(self.place + 1);
        match self.tokens.list.get(next as usize) {
            Some(Token::Close) => next + 1,
            _ => self.look(next),
        }
    }

    fn past_head(self, head: Head) -> u16
        ensures { result ≡ past_head (behind self.entry) self.entry.place head }
    {
        let next = self.place + 1;
        match head {
            Head::Leaf(_) => next,
            Head::Pair(_) | Head::Match | Head::Exit => self.times(2, next),
            Head::If => self.times(3, next),
            Head::Many(n, _) => self.times(n, next),
        }
    }

    pub(super) fn past(self, token: Token) -> u16
        ensures { result ≡ past_of (tokens_of self.entry) (behind self.entry) self.entry.place token }
    {
        match token {
            Token::Arm { .. } => self.past_arm(),
            Token::Expr(head) => self.past_head(head),
            _ => self.place + 1,
        }
    }
}
