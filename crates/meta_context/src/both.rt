use crate::env::Env;
use crate::metas::Metas;
use ld_terms::{Decl, Globals, Item, Name};

/// An environment and a metavariable context, as the engines read them.
#[derive(Clone, Copy)]
pub struct Both<'a, H: Copy> {
    pub env: &'a Env<H>,
    pub metas: &'a Metas<H>,
}

impl<'a, H: Copy> Globals<H> for Both<'a, H> {
    ghost items = { λ b. b.env.now };

    ghost metas = { λ b. b.metas.now };

    fn constant(&self, name: &Name) -> Option<&Item<H>> {
        self.env.find(name)
    }

    fn meta(&self, m: u32) -> Option<&Decl<H>> {
        self.metas.decl(m)
    }
}
