ghost use Rattle.std.specs.Prelude.{◌≡◌, Some, OnOk};
ghost use Rattle.battery.specs.Tree.{at as standing};
ghost use Rattle.table.specs.declared.token.Token.TheVariants.{Expr as EXPR};
ghost use Rattle.table.specs.declared.token.Head.TheVariants.{Leaf as LEAF, Pair as PAIR, Match as MATCH, Exit as EXIT};
ghost use Rattle.table.specs.declared.token.Pair.TheVariants.{Val as VAL};
ghost use Rattle.rules.specs.declared.shape.Shape.TheVariants.{Plain};
ghost use Rattle.rules.specs.Shapes.{shape_of};
ghost use Rattle.typing.specs.Walks.{tokens_at, WalksOn, Typed, ArmTyped, ArmsTyped};

use super::Walk;
use battery::Ty;
use rules::{
    Broken, Shape, TypeFault, Types, arm_at, arms_fit, closes_at, enum_of, fields, head_at,
    leaf_rule, rule, shape_of, type_at,
};
use scope::{bind, bind_all};
use table::{Head, Leaf};

impl Walk<'_, '_> {
    // The type of the expression at the walk's place. Behind it stand the same names.
    #[cycle(expressions)]
    pub(crate) fn expression(&mut self) -> Result<Ty, TypeFault>
        ensures on { OnOk result (WalksOn self.old self.new) }
        ensures is { Typed self.old result self.new }
    {
        let head = head_at(self.card, self.place).ok_or(Broken::Mistyped.at(self.place))?;
        match shape_of(head) {
            Shape::Leaf(leaf) => self.leaf(leaf),
            Shape::Val(name) => self.val(name),
            Shape::Match => self.choice(),
            Shape::Exit => self.exit(),
            Shape::Plain(n) => self.plain(head, n),
        }
    }

    fn leaf(&mut self, leaf: Leaf) -> Result<Ty, TypeFault>
        requires { standing (tokens_at self.old) self.old.place ≡ Some (EXPR (LEAF leaf)) }
        ensures on { OnOk result (WalksOn self.old self.new) }
        ensures is { Typed self.old result self.new }
    {
        let ty = leaf_rule(self.place, leaf, &self.entries[..self.bound])?;
        self.place += 1;
        Ok(ty)
    }

    // What follows a VAL sees its name.
    #[cycle(expressions)]
    fn val(&mut self, name: u16) -> Result<Ty, TypeFault>
        requires { standing (tokens_at self.old) self.old.place ≡ Some (EXPR (PAIR (VAL name))) }
        ensures on { OnOk result (WalksOn self.old self.new) }
        ensures is { Typed self.old result self.new }
    {
        let bound = self.bound;
        self.place += 1;
        let named = self.expression()?;
        let _ = bind(&mut self.entries, bound, name as u32, named);
        self.bound = bound + 1;
        let ty = self.expression()?;
        self.bound = bound;
        Ok(ty)
    }

    #[cycle(expressions)]
    fn exit(&mut self) -> Result<Ty, TypeFault>
        requires { standing (tokens_at self.old) self.old.place ≡ Some (EXPR EXIT) }
        ensures on { OnOk result (WalksOn self.old self.new) }
        ensures is { Typed self.old result self.new }
    {
        let mistyped = Broken::Mistyped.at(self.place);
        let ty = type_at(self.card, self.place + 1).ok_or(mistyped)?;
        self.place += 2;
        if self.expression()? == Ty::Text {
            Ok(ty)
        } else {
            Err(mistyped)
        }
    }

    // n parts, all of them with the same names, and then the rule of their head.
    #[cycle(expressions)]
    fn plain(&mut self, head: Head, n: u8) -> Result<Ty, TypeFault>
        requires here { standing (tokens_at self.old) self.old.place ≡ Some (EXPR head) }
        requires shape { shape_of head ≡ Plain n }
        ensures on { OnOk result (WalksOn self.old self.new) }
        ensures is { Typed self.old result self.new }
    {
        let at = self.place;
        self.place += 1;
        let mut types = Types::new();
        for _ in 0..n {
            types.push(self.expression()?);
        }
        rule(self.card, at, head, types.as_slice())
    }

    #[cycle(expressions)]
    fn choice(&mut self) -> Result<Ty, TypeFault>
        requires { standing (tokens_at self.old) self.old.place ≡ Some (EXPR MATCH) }
        ensures on { OnOk result (WalksOn self.old self.new) }
        ensures is { Typed self.old result self.new }
    {
        let mistyped = Broken::Mistyped.at(self.place);
        let unfit = Broken::Arms.at(self.place);
        self.place += 1;
        let of = enum_of(self.expression()?).ok_or(mistyped)?;
        let cases = self.card.cases(of).ok_or(unfit)?;
        if !arms_fit(self.card, self.place, of, cases) {
            return Err(unfit);
        }
        let ty = self.arm(of)?;
        if self.others_alike(of, ty)? {
            Ok(ty)
        } else {
            Err(mistyped)
        }
    }

    // An arm's names are bound to the fields of its case.
    #[cycle(expressions)]
    fn arm(&mut self, of: u16) -> Result<Ty, TypeFault>
        ensures on { OnOk result (WalksOn self.old self.new) }
        ensures is { ArmTyped of self.old result self.new }
    {
        let arm = arm_at(self.card, self.place).ok_or(Broken::Mistyped.at(self.place))?;
        let types = fields(self.card, of, arm.case);
        let bound = self.bound;
        let _ = bind_all(&mut self.entries, bound, arm.first, types.as_slice());
        self.place += 1;
        self.bound = bound + types.len();
        let ty = self.expression()?;
        self.bound = bound;
        Ok(ty)
    }

    // Whether the arms up to their CLOSE all have the type of the first.
    #[cycle(expressions)]
    fn others_alike(&mut self, of: u16, first: Ty) -> Result<bool, TypeFault>
        ensures on { OnOk result (WalksOn self.old self.new) }
        ensures is { ArmsTyped of first self.old result self.new }
    {
        let mut alike = true;
        while !closes_at(self.card, self.place) {
            alike &= self.arm(of)? == first;
        }
        self.place += 1;
        Ok(alike)
    }
}
