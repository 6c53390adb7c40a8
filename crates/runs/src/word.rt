ghost use Rattle.std.specs.Prelude.{◌==◌};
ghost use Rattle.std.proofs.Common.{rules};

use crate::element::Element;

// Numbers of 32 bits, as maps and tenants are: 0 where unused.
impl Element for u32 {
    ghost blank = { λ x. (x == 0) };

    ghost key = { λ x. x };

    ghost keyed = { Prim.search rules };

    ghost lawful = { Prim.search rules };

    ghost one_blank = { Prim.search rules };

    fn is_blank(self) -> bool {
        self == 0
    }

    fn key(self) -> u64 {
        u64::from(self)
    }
}
