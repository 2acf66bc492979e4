//! What a session looks at.
ghost use Rattle.std.specs.Prelude.{◌≡◌, IfOk};
ghost use Rattle.ipam_session.specs.Page.{page_in};
ghost use Rattle.ipam_serve.specs.Looks.{IsUsage};

use ipam_records::Key;
use ipam_session::{Page, page_of};
use ipam_shared::Look;
use ipam_show::{PoolUsage, pools_usage};
use ipam_store::Store;
use ipam_words::RowKind;
use std::alloc::{AllocError, Global};

/// A page of the rows of this kind after this key, or from the first on.
#[derive(Drop)]
pub(crate) struct PageLook<'a> {
    pub(crate) alloc: Global,
    pub(crate) kind: RowKind,
    pub(crate) after: &'a Option<Key>,
}

impl<'a> Look for PageLook<'a> {
    type Told = Result<Page, AllocError>;

    ghost tells = { λ look store told. IfOk told (λ page. page ≡ page_in store look.kind look.after.now) };

    fn look(self, store: &Store) -> Result<Page, AllocError> {
        page_of(self.alloc, store, self.kind, self.after)
    }
}

/// The revision, and what each pool is used for.
#[derive(Drop)]
pub(crate) struct UsageLook {
    pub(crate) alloc: Global,
}

impl Look for UsageLook {
    type Told = Result<(u64, Vec<PoolUsage>), AllocError>;

    ghost tells = { λ look store told. IfOk told (λ usage. IsUsage store usage.0 usage.1.items) };

    fn look(self, store: &Store) -> Result<(u64, Vec<PoolUsage>), AllocError> {
        match pools_usage(self.alloc, store) {
            Ok(pools) => Ok((store.counter(), pools)),
            Err(fault) => Err(fault),
        }
    }
}
