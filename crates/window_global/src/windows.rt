ghost use Rattle.std.specs.Prelude.{◌≡◌, ◌↔◌, ◌<◌, [], if◌then◌else◌, true, IsErrOf, List, OnErr, OnOk};
ghost use Rattle.std.specs.Prelude.{Some};
ghost use Rattle.std.specs.Bool.{OnFalse};
ghost use Rattle.std.specs.Option.{option_copied};
ghost use Rattle.indexmap.specs.IndexMap.{get, spare, IsUnchanged};
ghost use Rattle.fission_ids.specs.Ids.{same_context};
ghost use Rattle.window_global.specs.Windows.{context_of, is_live, is_made, live_of, open_context};
ghost use Rattle.window_global.specs.Windows.{row_of, url_of, windows_after_begin, windows_after_close};
ghost use Rattle.window_global.specs.Windows.{windows_without_open, AreSound};
ghost use Rattle.window_global.specs.Kept.{entries_of, key_of, AreTied};
ghost use Rattle.window_global.specs.declared.fault.WindowFault.TheVariants as faults;
ghost use Rattle.window_global.specs.declared.row.WindowRow.{WindowRow};

use crate::fault::WindowFault;
use crate::row::WindowRow;
use fission_ids::{ContextId, Duplicate, OutOfMemory, WindowId};
use indexmap::IndexMap;
use std::alloc::Global;
use std::marker::Model;
use url::Url;

// The creator and the serial of a window.
type Key = (u8, u32);

/// The windows that were made on one side. Seen as the list of their rows, in the order made.
#[derive(Debug, Drop)]
pub struct Windows {
    rows: IndexMap<Key, WindowRow>,
    // The open window of each context that has one.
    live: IndexMap<ContextId, WindowId>,
}

impl Model for Windows {
    ghost use Rattle.std.specs.Prelude.{List};
    ghost use Rattle.window_global.specs.declared.row.WindowRow.{WindowRow};
    ghost use Rattle.window_global.specs.Kept.{rows_in, AreKept};

    ghost Value = { List WindowRow };

    ghost view = { λ w. rows_in w.rows.entries };

    ghost invariant = { λ w. AreKept w.rows.entries w.live.entries };
}

impl Windows {
    /// No window was made.
    pub fn new(alloc: Global) -> Windows
        ensures { result ≡ [] }
    {
        Windows {
            rows: IndexMap::new(alloc),
            live: IndexMap::new(alloc),
        }
    }

    /// Each window was made once, and each context has at most one that is open. Takes no time.
    pub fn keeps_one_open(&self)
        ensures { AreSound self.now }
    {
        let _ = &self.rows;
    }

    /// The windows, in the order made.
    pub fn rows(&self) -> &[WindowRow]
        ensures { result.now ≡ self.now }
    {
        self.rows.values().as_slice()
    }

    /// Makes a window for a context, at an address. It is closed at once where it is late; else it is open,
    /// and the open window of the context closes. Known exactly where the window was made already. On Err the
    /// windows stay as they were.
    pub fn begin(
        &mut self,
        w: WindowId,
        x: ContextId,
        url: Url,
        late: bool,
    ) -> Result<(), WindowFault>
        ensures ok { OnOk result (self.new ≡ windows_after_begin w x url late self.old) }
        ensures err { OnErr result (self.new ≡ self.old) }
        ensures known { IsErrOf result faults.Known ↔ (is_made w self.old ≡ true) }
    {
        if self.is_made(w) {
            return Err(WindowFault::Known);
        }
        make_way(&mut self.rows, &mut self.live, x, w, late)?;
        self.rows
            .insert(key_of(w), WindowRow::begun(w, x, url, late))
            .unwrap();
        Ok(())
    }

    /// Closes a window. False exactly where it wasn't open, and then nothing changes.
    pub fn close(&mut self, w: WindowId) -> bool
        ensures answer { result ≡ is_live w self.old }
        ensures rows { self.new ≡ windows_after_close w self.old }
        ensures unchanged { OnFalse result (self.new ≡ self.old) }
    {
        let Some(x) = self.open_context(w) else {
            return false;
        };
        shut(&mut self.rows, w);
        self.live.swap_remove(&x);
        true
    }

    /// The open window of a context. None exactly where it has none.
    pub fn live_of(&self, x: ContextId) -> Option<WindowId>
        ensures { result ≡ live_of x self.now }
    {
        self.live.get(&x).copied()
    }

    /// The context that a window was made for. None exactly where it wasn't made.
    pub fn context_of(&self, w: WindowId) -> Option<ContextId>
        ensures { result ≡ context_of w self.now }
    {
        Some(self.row(w)?.context)
    }

    /// Whether a window is open.
    pub fn is_live(&self, w: WindowId) -> bool
        ensures { result ≡ is_live w self.now }
    {
        self.open_context(w).is_some()
    }

    /// The address of a window. None exactly where it wasn't made.
    pub fn url(&self, w: WindowId) -> Option<&Url>
        ensures { option_copied result ≡ url_of w self.now }
    {
        Some(&self.row(w)?.url)
    }

    fn is_made(&self, w: WindowId) -> bool
        ensures { result ≡ is_made w self.now }
    {
        self.row(w).is_some()
    }

    // What was made as this window.
    fn row(&self, w: WindowId) -> Option<&WindowRow>
        ensures { option_copied result ≡ row_of w self.now }
    {
        self.rows.get(&key_of(w))
    }

    // The context of a window that is open.
    fn open_context(&self, w: WindowId) -> Option<ContextId>
        ensures { result ≡ open_context w self.now }
    {
        let row = self.row(w)?;
        if row.is_open { Some(row.context) } else { None }
    }
}

fn key_of(w: WindowId) -> Key
    ensures { result ≡ key_of w }
{
    (w.creator, w.serial)
}

// Closes a window, if it was made.
fn shut(rows: &mut IndexMap<Key, WindowRow>, w: WindowId)
    ensures rows { (rs : List WindowRow) → AreTied rows.old.entries rs →
        rows.new.entries ≡ entries_of (windows_after_close w rs) }
    ensures room { spare rows.new ≡ spare rows.old }
{
    if let Some(row) = rows.get_mut(&key_of(w)) {
        row.close();
    }
}

// Makes room for a row. Where it isn't late, its window is noted as the open one of its context, and the one
// that was open closes. Where memory is wanting, nothing changes.
fn make_way(
    rows: &mut IndexMap<Key, WindowRow>,
    live: &mut IndexMap<ContextId, WindowId>,
    x: ContextId,
    w: WindowId,
    late: bool,
) -> Result<(), OutOfMemory>
    ensures rows { OnOk result ((rs : List WindowRow) → AreTied rows.old.entries rs →
        get same_context live.old x ≡ live_of x rs →
        rows.new.entries ≡ entries_of (if late then rs else windows_without_open x rs)) }
    ensures live { OnOk result ((y : ContextId) → get same_context live.new y ≡
        (if late then get same_context live.old y
        else if same_context x y then Some w else get same_context live.old y)) }
    ensures room { OnOk result (0 < spare rows.new) }
    ensures err_rows { OnErr result (IsUnchanged rows.old rows.new) }
    ensures err_live { OnErr result (IsUnchanged live.old live.new) }
{
    rows.reserve(1)?;
    if late {
        return Ok(());
    }
    if let Some(before) = live.insert(x, w)? {
        shut(rows, before);
    }
    Ok(())
}

impl Duplicate for Windows {
    fn copy(&self) -> Result<Windows, OutOfMemory> {
        Ok(Windows {
            rows: self.rows.clone()?,
            live: self.live.clone()?,
        })
    }
}
