//! What every picture begins with: how its shapes look.

/// The title, the colours and strokes of each kind of mark, light and dark, and the head of an arrow.
pub(crate) const STYLE: &[u8] = b"\
<title>A history: a column a process, time downwards</title>\n\
<style>\n\
svg{color:#1f2328;font:12px monospace}.page,.answer,.come,.hand{fill:#fff}\n\
text{fill:currentColor;paint-order:stroke;stroke:#fff;stroke-width:3px;stroke-linejoin:round}\n\
path{fill:none;stroke:currentColor}.row{color:#e4e8ec}.wall,.kernel,.number,.step,.dead{color:#656d76}\n\
.wall{stroke-dasharray:6 4}.kernel{stroke-width:3}.name{text-anchor:middle;font-weight:bold}.number{text-anchor:end}\n\
.blocked{stroke-width:9}.done{stroke-width:9;stroke-dasharray:2 3}.dead{stroke-dasharray:1 5}\n\
.call,.dot,.tip{fill:currentColor}.tip,.dot{stroke:none}.answer,.tick{stroke-width:2}.frame,.hand{stroke-width:1.5}\n\
.send{color:#0550ae}.reply{color:#116329}.pending{color:#8a5200}.negative{color:#a40e26}\n\
.movedata,.moveack,.moverequest,.movebytes,.movenegative{color:#6639ba}.askpid,.tellpid{color:#0a6e74}\n\
.pending,.moveack,.moverequest{stroke-dasharray:6 3}.negative,.movenegative{stroke-dasharray:2 3}\
.askpid,.tellpid{stroke-dasharray:8 2 2 2}\n\
@media (prefers-color-scheme:dark){svg{color:#e6edf3}.page,.answer,.come,.hand{fill:#0d1117}text{stroke:#0d1117}\n\
.row{color:#22272e}.wall,.kernel,.number,.step,.dead{color:#9198a1}\n\
.send{color:#6cb6ff}.reply{color:#57c46b}.pending{color:#d4a72c}.negative{color:#ff8182}\n\
.movedata,.moveack,.moverequest,.movebytes,.movenegative{color:#c297ff}.askpid,.tellpid{color:#56d4dd}}\n\
</style>\n\
<defs><marker id=\"head\" viewBox=\"0 0 8 8\" refX=\"8\" refY=\"4\" markerWidth=\"8\" markerHeight=\"8\" markerUnits=\"userSpaceOnUse\"\n\
orient=\"auto\"><path class=\"tip\" d=\"M0 0 8 4 0 8z\"/></marker></defs>\n";
