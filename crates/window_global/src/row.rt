ghost use Rattle.std.specs.Prelude.{◌≡◌};
ghost use Rattle.window_global.specs.Windows.{begun, closed};

use fission_ids::{ContextId, Duplicate, OutOfMemory, WindowId};
use std::alloc::AllocError;
use url::Url;

/// A window that was made.
#[derive(Debug, Drop)]
pub struct WindowRow {
    /// The window.
    pub window: WindowId,
    /// The context that it was made for.
    pub context: ContextId,
    /// The address that it shows.
    pub url: Url,
    /// Whether it is open.
    pub is_open: bool,
}

impl WindowRow {
    // A window that begins, and is closed at once where it is late.
    pub(crate) fn begun(w: WindowId, x: ContextId, url: Url, late: bool) -> WindowRow
        ensures { result ≡ begun w x url late }
    {
        WindowRow {
            window: w,
            context: x,
            url,
            is_open: !late,
        }
    }

    // Closes the window.
    pub(crate) fn close(&mut self)
        ensures { self.new ≡ closed self.old }
    {
        self.is_open = false;
    }
}

impl Clone for WindowRow {
    ghost is_clone = { λ row c. c ≡ row };

    fn clone(&self) -> Result<WindowRow, AllocError> {
        Ok(WindowRow {
            window: self.window,
            context: self.context,
            url: self.url.clone()?,
            is_open: self.is_open,
        })
    }
}

impl Duplicate for WindowRow {
    fn copy(&self) -> Result<WindowRow, OutOfMemory> {
        Ok(self.clone()?)
    }
}
