#!/usr/bin/env python3
"""rt WORD..: rt, as the kit has it, without two needless costs.

rt walks from a crate to the libraries below it along every path by which one crate stands on another, and does so anew
for each question: half of the time before the first proof is spent on that. Kit 13b also sums up a crate's sources along
each of these paths, twice for each library: half a million sums of some two milliseconds here, all in one thread, so that
for half an hour and more the provers wait for them, and minutes of a processor before each check of an upper crate. So the
libraries below a crate are listed once, and on kit 13b its sum is taken once: while one run works in the folders of a crate
and of those below it, no source of theirs may change anyhow. All else is the kit's own code, called by its own main."""

import functools
import importlib.machinery
import importlib.util
import os
import shutil
import sys

KIT_WITH_SLOW_SUMS = "rattle-kit-13b "


def main() -> int:
    path = shutil.which("rt") or sys.exit(".rt: there is no rt on PATH")
    with open(path, "rb") as command:
        if b"python" not in command.readline():
            os.execv(path, [path, *sys.argv[1:]])  # not the kit's own, as where a test stands in for it
    loader = importlib.machinery.SourceFileLoader("rt", os.path.realpath(path))
    spec = importlib.util.spec_from_loader("rt", loader)
    rt = importlib.util.module_from_spec(spec)
    sys.modules["rt"] = rt
    loader.exec_module(rt)
    crate = rt.rtlib.Crate
    # a crate knows the libraries of its line before it is asked for those below it, and they stay the same
    known = functools.cache(crate.below)
    crate.below = lambda self: list(known(self))
    with open(f"{rt.KIT}/KIT-ID", encoding="utf-8") as identity:
        if identity.read().startswith(KIT_WITH_SLOW_SUMS):
            crate.stamp = functools.cache(crate.stamp)
    return rt.main(sys.argv[1:])


if __name__ == "__main__":
    sys.exit(main())
