// Errors of the operating system, and what each call makes of them.
use crate::calls::{Call, Row};
use crate::cases::Case;
use crate::script::Reply;
use std::io::ErrorKind;

pub static FAILURES: [Case; 2] = [
    Case {
        name: "Each kind of error of the operating system has its answer.",
        calls: &[
            Row("/f", Call::MakeDir, "NotFound"),
            Row("/f", Call::MakeDir, "Exists"),
            Row("/f", Call::MakeDir, "NotDir"),
            Row("/f", Call::MakeDir, "NotEmpty"),
            Row("/f", Call::MakeDir, "CrossDevice"),
            Row("/f", Call::MakeDir, "OutOfMemory"),
            Row("/f", Call::MakeDir, "Failed"),
            Row("/f", Call::MakeDir, "Failed"),
            Row("/f", Call::MakeDir, "Failed"),
            Row("/f", Call::MakeDir, "Failed"),
            Row("/f", Call::MakeDir, "Failed"),
            Row("/f", Call::MakeDir, "Failed"),
        ],
        system: &[
            (
                "make with mode 700 the directory /f",
                Reply::Fails(ErrorKind::NotFound),
            ),
            (
                "make with mode 700 the directory /f",
                Reply::Fails(ErrorKind::AlreadyExists),
            ),
            (
                "make with mode 700 the directory /f",
                Reply::Fails(ErrorKind::NotADirectory),
            ),
            (
                "make with mode 700 the directory /f",
                Reply::Fails(ErrorKind::DirectoryNotEmpty),
            ),
            (
                "make with mode 700 the directory /f",
                Reply::Fails(ErrorKind::CrossesDevices),
            ),
            (
                "make with mode 700 the directory /f",
                Reply::Fails(ErrorKind::OutOfMemory),
            ),
            (
                "make with mode 700 the directory /f",
                Reply::Fails(ErrorKind::PermissionDenied),
            ),
            (
                "make with mode 700 the directory /f",
                Reply::Fails(ErrorKind::StorageFull),
            ),
            (
                "make with mode 700 the directory /f",
                Reply::Fails(ErrorKind::IsADirectory),
            ),
            (
                "make with mode 700 the directory /f",
                Reply::Fails(ErrorKind::InvalidInput),
            ),
            (
                "make with mode 700 the directory /f",
                Reply::Fails(ErrorKind::Uncategorized),
            ),
            (
                "make with mode 700 the directory /f",
                Reply::Fails(ErrorKind::ReadOnlyFilesystem),
            ),
        ],
    },
    Case {
        name: "Each call answers what the operating system answers, and nothing more is asked then.",
        calls: &[
            Row("/f", Call::Create, "Exists"),
            Row("/f", Call::Create, "Failed"),
            Row("/f", Call::Write(0, "a"), "Failed"),
            Row("/f", Call::Read(0, 1), "NotFound"),
            Row("/f", Call::Read(0, 1), "Failed"),
            Row("/f", Call::SyncFile, "Failed"),
            Row("/d", Call::SyncDir, "Failed"),
            Row("/d", Call::List, "Failed"),
            Row("/d", Call::List, "Failed"),
            Row("/d", Call::RemoveDir, "NotEmpty"),
            Row("/f", Call::Link("/g"), "CrossDevice"),
            Row("/f", Call::Rename("/g"), "Failed"),
            Row("/f", Call::Unlink, "Failed"),
            Row("/s", Call::MakeSymlink("/f"), "Exists"),
            Row("/s", Call::ReadLink, "Failed"),
            Row("/a/f", Call::Stat, "Failed"),
        ],
        system: &[
            ("make /f", Reply::Fails(ErrorKind::AlreadyExists)),
            ("make /f", Reply::Done),
            ("measure /f", Reply::Fails(ErrorKind::NotFound)),
            ("close /f", Reply::Done),
            ("look at /f", Reply::File(1)),
            ("open to write /f", Reply::Done),
            ("go to 0 in /f", Reply::Done),
            ("write a to /f", Reply::Fails(ErrorKind::StorageFull)),
            ("close /f", Reply::Done),
            ("look at /f", Reply::File(1)),
            ("open to read /f", Reply::Fails(ErrorKind::NotFound)),
            ("look at /f", Reply::File(1)),
            ("open to read /f", Reply::Done),
            ("go to 0 in /f", Reply::Fails(ErrorKind::InvalidInput)),
            ("close /f", Reply::Done),
            ("look at /f", Reply::File(1)),
            ("open to read /f", Reply::Done),
            ("sync /f", Reply::Fails(ErrorKind::NotFound)),
            ("close /f", Reply::Done),
            ("look at /d", Reply::Dir),
            ("open to read /d", Reply::Done),
            ("sync /d", Reply::Fails(ErrorKind::NotFound)),
            ("close /d", Reply::Done),
            ("look at /d", Reply::Dir),
            (
                "open the directory /d/",
                Reply::Fails(ErrorKind::PermissionDenied),
            ),
            ("look at /d", Reply::Dir),
            ("open the directory /d/", Reply::Done),
            ("names of /d/", Reply::Fails(ErrorKind::PermissionDenied)),
            (
                "remove the directory /d",
                Reply::Fails(ErrorKind::DirectoryNotEmpty),
            ),
            ("look at /f", Reply::File(1)),
            ("link /f to /g", Reply::Fails(ErrorKind::CrossesDevices)),
            ("look at /f", Reply::File(1)),
            ("look at /g", Reply::Fails(ErrorKind::NotFound)),
            (
                "rename /f to /g",
                Reply::Fails(ErrorKind::ReadOnlyFilesystem),
            ),
            ("look at /f", Reply::File(1)),
            ("remove /f", Reply::Fails(ErrorKind::ReadOnlyFilesystem)),
            (
                "point to /f from /s",
                Reply::Fails(ErrorKind::AlreadyExists),
            ),
            ("look at /s", Reply::Link),
            ("read the link /s", Reply::Fails(ErrorKind::InvalidFilename)),
            ("look at /a", Reply::Fails(ErrorKind::PermissionDenied)),
        ],
    },
];
