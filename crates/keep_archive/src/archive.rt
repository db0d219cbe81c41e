use crate::archive_node::{kind_of_file, kind_of_other, node_of};
use crate::carried::Carried;
use crate::going::Going;
use crate::held::HeldBlob;
use keep_build::Cut;
use keep_catalog::Hashing;
use keep_names::{BlobType, Id};
use keep_plan::PlanError;
use std::alloc::Global;

/// A folder that is given node by node, each folder in it before it is closed. Blobs of it are held until they are
/// stored.
///
/// A refusal leaves it as it was. But where memory runs out it is shut, and answers `Memory` from then on.
#[derive(Drop)]
pub struct Archive {
    pub(crate) going: Option<Going>,
}

impl Archive {
    ghost use Rattle.std.specs.Prelude.{◌≡◌, ◌-◌, ◌^◌, [], None, Some, IfSome, map, min, string_bytes};
    ghost use Rattle.keep_build.specs.Packs.{bytes_in};
    ghost use Rattle.keep_archive.specs.Archive.{archive_view, carried_view, held_view};
    ghost use Rattle.keep_archive.specs.Steps.{AddsOther, Closes, DropsFile, EndsFile, Leaves, LetsGo, Opens, SamesFile, WritesFile, close_refusal, never, node_refusal, open_refusal, other_refusal};

    /// An empty root folder is open, and no file is begun. Files are cut so.
    pub fn new(alloc: Global, cut: Cut) -> Archive
        ensures { archive_view result ≡ Some (record {
          place = record { around = []; nodes = [] };
          begun = record { cut = cut.bytes; content = []; rest = [] };
          blobs = record { named = []; held = [] };
        }) }
    {
        Archive {
            going: Some(Going::new(alloc, cut)),
        }
    }

    /// Opens a new folder in the one that is open. The name is as the tree has it. `BadPath` where no node can have
    /// it, `SamePathTwice` where a node there has it, `TooDeep` where 256 folders are open.
    pub fn open_folder(&mut self, name: String) -> Result<(), PlanError>
        ensures { Leaves (open_refusal (string_bytes name)) (Opens (string_bytes name))
            (archive_view self.old) (archive_view self.new) result }
    {
        let Some(going) = self.going.take() else {
            return Err(PlanError::Memory);
        };
        if let Some(refusal) = going.place.opening_refusal(&name) {
            self.going = Some(going);
            return Err(refusal);
        }
        let Going {
            alloc,
            place,
            begun,
            blobs,
        } = going;
        let place = place.open(alloc, name)?;
        self.going = Some(Going {
            alloc,
            place,
            begun,
            blobs,
        });
        Ok(())
    }

    /// Closes the folder that is open: it is a node of the one around it. `BadPath` where it is the root, `Full` where
    /// its tree has 4,294,967,296 bytes or more.
    pub fn close_folder(&mut self, others: Carried) -> Result<(), PlanError>
        ensures { Leaves close_refusal (Closes (carried_view others))
            (archive_view self.old) (archive_view self.new) result }
    {
        let Some(going) = self.going.take() else {
            return Err(PlanError::Memory);
        };
        if let Some(refusal) = going.place.closing_refusal() {
            self.going = Some(going);
            return Err(refusal);
        }
        let text = going.place.folder.tree_text(going.alloc)?;
        if text.len() >= 4_294_967_296 {
            self.going = Some(going);
            return Err(PlanError::Full);
        }
        let Going {
            alloc,
            place,
            begun,
            blobs,
        } = going;
        let tree = HeldBlob::of(BlobType::Tree, text);
        let place = place.close(tree.blob.id, others)?;
        let blobs = blobs.hold(tree)?;
        self.going = Some(Going {
            alloc,
            place,
            begun,
            blobs,
        });
        Ok(())
    }

    /// Gives more bytes of the file that is being read. Each piece is hashed once, as soon as it is whole. Those that
    /// these bytes make whole are hashed together, by this.
    pub fn write<H: Hashing>(&mut self, bytes: &[u8], hashing: &mut H) -> Result<(), PlanError>
        ensures { Leaves never (WritesFile bytes.now) (archive_view self.old) (archive_view self.new) result }
    {
        let Some(going) = self.going.take() else {
            return Err(PlanError::Memory);
        };
        let Going {
            alloc,
            place,
            begun,
            blobs,
        } = going;
        let (begun, blobs) = begun.write(alloc, blobs, bytes, hashing)?;
        self.going = Some(Going {
            alloc,
            place,
            begun,
            blobs,
        });
        Ok(())
    }

    /// Ends the file that is being read: it is a node of the folder that is open. A last piece that wasn't hashed is, by
    /// this. `BadPath` and `SamePathTwice` as of a folder; then the file isn't ended.
    pub fn end_file<H: Hashing>(
        &mut self,
        name: String,
        others: Carried,
        hashing: &mut H,
    ) -> Result<(), PlanError>
        ensures { Leaves (node_refusal (string_bytes name))
            (EndsFile (string_bytes name) (carried_view others))
            (archive_view self.old) (archive_view self.new) result }
    {
        let Some(going) = self.going.take() else {
            return Err(PlanError::Memory);
        };
        if let Some(refusal) = going.place.folder.refusal(&name) {
            self.going = Some(going);
            return Err(refusal);
        }
        let Going {
            alloc,
            place,
            begun,
            blobs,
        } = going;
        let (content, begun, blobs) = begun.end(alloc, blobs, hashing)?;
        let kind = kind_of_file(alloc, &content)?;
        let place = place.add(node_of(name, kind, others))?;
        self.going = Some(Going {
            alloc,
            place,
            begun,
            blobs,
        });
        Ok(())
    }

    /// What was read since the last file was ended is of no file. Pieces of it that are held stay so.
    pub fn drop_file(&mut self) -> Result<(), PlanError>
        ensures { Leaves never DropsFile (archive_view self.old) (archive_view self.new) result }
    {
        let Some(going) = self.going.take() else {
            return Err(PlanError::Memory);
        };
        let Going {
            alloc,
            place,
            begun,
            blobs,
        } = going;
        let begun = begun.dropped(alloc);
        self.going = Some(Going {
            alloc,
            place,
            begun,
            blobs,
        });
        Ok(())
    }

    /// Adds a file that isn't read again: these pieces have to have places when the backup is planned. `BadPath` and
    /// `SamePathTwice` as of a folder.
    pub fn same_file(
        &mut self,
        name: String,
        content: &[Id],
        others: Carried,
    ) -> Result<(), PlanError>
        ensures { Leaves (node_refusal (string_bytes name))
            (SamesFile (string_bytes name) content.now (carried_view others))
            (archive_view self.old) (archive_view self.new) result }
    {
        let Some(going) = self.going.take() else {
            return Err(PlanError::Memory);
        };
        if let Some(refusal) = going.place.folder.refusal(&name) {
            self.going = Some(going);
            return Err(refusal);
        }
        let Going {
            alloc,
            place,
            begun,
            blobs,
        } = going;
        let blobs = blobs.name(content)?;
        let kind = kind_of_file(alloc, content)?;
        let place = place.add(node_of(name, kind, others))?;
        self.going = Some(Going {
            alloc,
            place,
            begun,
            blobs,
        });
        Ok(())
    }

    /// Adds a node of another type, as `symlink`, `fifo`, `socket`, `dev` or `chardev`. `BadPath` and `SamePathTwice`
    /// as of a folder, and `BadPath` of the types `dir` and `file`.
    pub fn add_other(
        &mut self,
        name: String,
        type_name: String,
        others: Carried,
    ) -> Result<(), PlanError>
        ensures { Leaves (other_refusal (string_bytes name) (string_bytes type_name))
            (AddsOther (string_bytes name) (string_bytes type_name) (carried_view others))
            (archive_view self.old) (archive_view self.new) result }
    {
        let Some(going) = self.going.take() else {
            return Err(PlanError::Memory);
        };
        if let Some(refusal) = going.place.folder.refusal(&name) {
            self.going = Some(going);
            return Err(refusal);
        }
        if type_name.as_str() == "dir" || type_name.as_str() == "file" {
            self.going = Some(going);
            return Err(PlanError::BadPath);
        }
        let Going {
            alloc,
            place,
            begun,
            blobs,
        } = going;
        let kind = kind_of_other(type_name);
        let place = place.add(node_of(name, kind, others))?;
        self.going = Some(Going {
            alloc,
            place,
            begun,
            blobs,
        });
        Ok(())
    }

    /// How many bytes wait to be stored; none where it is shut.
    pub fn held(&self) -> u64
        ensures open { IfSome (archive_view self.now) (λ a. result ≡ min (2 ^ 64 - 1) (bytes_in a.blobs.held)) }
        ensures shut { archive_view self.now ≡ None → result ≡ 0 }
    {
        match &self.going {
            Some(going) => going.blobs.bytes_held(),
            None => 0,
        }
    }

    /// The blobs that wait to be stored; none where it is shut.
    pub fn waiting(&self) -> &[HeldBlob]
        ensures open { IfSome (archive_view self.now) (λ a. map held_view result.now ≡ a.blobs.held) }
        ensures shut { archive_view self.now ≡ None → result.now ≡ [] }
    {
        match &self.going {
            Some(going) => &going.blobs.held,
            None => &[],
        }
    }

    /// What is held was stored: its bytes go. Its blobs have to have places when the backup is planned.
    pub fn let_go(&mut self) -> Result<(), PlanError>
        ensures { Leaves never LetsGo (archive_view self.old) (archive_view self.new) result }
    {
        let Some(going) = self.going.take() else {
            return Err(PlanError::Memory);
        };
        let Going {
            alloc,
            place,
            begun,
            blobs,
        } = going;
        let blobs = blobs.let_go(alloc)?;
        self.going = Some(Going {
            alloc,
            place,
            begun,
            blobs,
        });
        Ok(())
    }
}
